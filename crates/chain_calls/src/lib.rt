// The calls on a chain of stores: each names its store, and has no premise. What is no chain is refused with 1, 10 or 3; then the store's parts are lent
// to the call, with no second check of its soundness, and the other stores keep every byte and word.
#![tactic(auto)]

ghost use Rattle.std.specs.Prelude.{◌≡◌, ◌≤◌};
ghost use Rattle.std.proofs.Math.Option.{none, some};
ghost use Rattle.model.specs.Image.{with_blanks};
ghost use Rattle.chain.specs.Chain.{chain_of, chain_refusal};
ghost use Rattle.chain.specs.Limit.{other_cells};
ghost use Rattle.chain.specs.Calls.{chain_backup, chain_restore, chain_retire, chain_listing, chain_version_on, chain_tally, chain_bill, chain_write_stream, chain_offer, chain_backup_sent, chain_backup_all, chain_set_rights};
ghost use Rattle.refusals.specs.Refusals.{refusal_of};
ghost use Rattle.backup.specs.Call.{backup_result};
ghost use Rattle.tills.specs.Answers.{listing_result, version_on_result};
ghost use Rattle.restore.specs.Answers.{restore_result};
ghost use Rattle.retire.specs.Answers.{retire_result};
ghost use Rattle.tally.specs.Answers.{tally_result};
ghost use Rattle.stream_write.specs.Answers.{write_result};
ghost use Rattle.sent_offer.specs.Offer.{offered};
ghost use Rattle.closing_backup.specs.Answers.{closing_result};
ghost use Rattle.bill_sums.specs.Answers.{bill_result};
ghost use Rattle.rights.specs.Answers.{rights_given, rights_answered};

use backup_steps::Limit;
use closing_backup::Each;
use refusals::Refusal;
use restore::Image;
use rights::Rights;
use tally::Tallied;
use tills::Listed;

// What the other stores of a chain occupy, and how much all of them may.
fn limit_beside(
    pools: &[u8],
    tables: &[u32],
    pool_lengths: &[u32],
    table_lengths: &[u32],
    store: u32,
    most: u32,
) -> Limit
    requires { chain_refusal (chain_of pools.now tables.now pool_lengths.now table_lengths.now) store ≡ 0 }
    ensures { (result.others ≡ other_cells (chain_of pools.now tables.now pool_lengths.now table_lengths.now) store) × (result.others ≤ 524288) × (result.most ≡ most) }
{
    let others = chain_check::other_cells(pools, tables, pool_lengths, table_lengths, store);
    Limit { others, most }
}

pub fn backup(
    pools: &mut [u8],
    tables: &mut [u32],
    pool_lengths: &[u32],
    table_lengths: &[u32],
    store: u32,
    limit: u32,
    user: u32,
    till: u32,
    image: &[u8],
) -> Result<u32, Refusal>
    ensures { backup_result result pools.new tables.new ≡ chain_backup with_blanks (chain_of pools.old tables.old pool_lengths.now table_lengths.now) store limit user till none image.now }
{
    let p = chain_check::find_store(pools, tables, pool_lengths, table_lengths, store)?;
    let limited = limit_beside(pools, tables, pool_lengths, table_lengths, store, limit);
    user_calls::backup(
        &mut pools[p.from..p.end],
        &mut tables[p.at..p.stop],
        user,
        till,
        image,
        limited,
    )
}

// With a day for the new version.
pub fn backup_dated(
    pools: &mut [u8],
    tables: &mut [u32],
    pool_lengths: &[u32],
    table_lengths: &[u32],
    store: u32,
    limit: u32,
    user: u32,
    till: u32,
    day: u32,
    image: &[u8],
) -> Result<u32, Refusal>
    ensures { backup_result result pools.new tables.new ≡ chain_backup with_blanks (chain_of pools.old tables.old pool_lengths.now table_lengths.now) store limit user till (some day) image.now }
{
    let p = chain_check::find_store(pools, tables, pool_lengths, table_lengths, store)?;
    let limited = limit_beside(pools, tables, pool_lengths, table_lengths, store, limit);
    user_calls::backup_dated(
        &mut pools[p.from..p.end],
        &mut tables[p.at..p.stop],
        user,
        till,
        day,
        image,
        limited,
    )
}

pub fn restore(
    pools: &[u8],
    tables: &[u32],
    pool_lengths: &[u32],
    table_lengths: &[u32],
    store: u32,
    user: u32,
    till: u32,
    version: u32,
    output: &mut [u8],
) -> Result<Image, Refusal>
    ensures { restore_result result output.new ≡ chain_restore (chain_of pools.now tables.now pool_lengths.now table_lengths.now) store user till version output.old }
{
    let p = chain_check::find_store(pools, tables, pool_lengths, table_lengths, store)?;
    user_calls::restore(
        &pools[p.from..p.end],
        &tables[p.at..p.stop],
        user,
        till,
        version,
        output,
    )
}

// The limit refuses no retire.
pub fn retire(
    pools: &mut [u8],
    tables: &mut [u32],
    pool_lengths: &[u32],
    table_lengths: &[u32],
    store: u32,
    user: u32,
    till: u32,
    version: u32,
) -> Result<u32, Refusal>
    ensures { retire_result result pools.new tables.new ≡ chain_retire (chain_of pools.old tables.old pool_lengths.now table_lengths.now) store user till version }
{
    let p = chain_check::find_store(pools, tables, pool_lengths, table_lengths, store)?;
    user_calls::retire(
        &mut pools[p.from..p.end],
        &mut tables[p.at..p.stop],
        user,
        till,
        version,
    )
}

pub fn listing(
    pools: &[u8],
    tables: &[u32],
    pool_lengths: &[u32],
    table_lengths: &[u32],
    store: u32,
    user: u32,
    till: u32,
) -> Result<Listed, Refusal>
    ensures { listing_result result ≡ chain_listing (chain_of pools.now tables.now pool_lengths.now table_lengths.now) store user till }
{
    let p = chain_check::find_store(pools, tables, pool_lengths, table_lengths, store)?;
    user_calls::listing(&pools[p.from..p.end], &tables[p.at..p.stop], user, till)
}

// The version of a day: the newest one held that is not after it.
pub fn version_on(
    pools: &[u8],
    tables: &[u32],
    pool_lengths: &[u32],
    table_lengths: &[u32],
    store: u32,
    user: u32,
    till: u32,
    day: u32,
) -> Result<u32, Refusal>
    ensures { version_on_result result ≡ chain_version_on (chain_of pools.now tables.now pool_lengths.now table_lengths.now) store user till day }
{
    let p = chain_check::find_store(pools, tables, pool_lengths, table_lengths, store)?;
    user_calls::version_on(
        &pools[p.from..p.end],
        &tables[p.at..p.stop],
        user,
        till,
        day,
    )
}

// The owner's only.
pub fn tally(
    pools: &[u8],
    tables: &[u32],
    pool_lengths: &[u32],
    table_lengths: &[u32],
    store: u32,
    user: u32,
) -> Result<Tallied, Refusal>
    ensures { tally_result result ≡ chain_tally (chain_of pools.now tables.now pool_lengths.now table_lengths.now) store user }
{
    let p = chain_check::find_store(pools, tables, pool_lengths, table_lengths, store)?;
    user_calls::tally(&pools[p.from..p.end], &tables[p.at..p.stop], user)
}

// What each till has to pay for the occupied cells; the owner's only.
pub fn bill(
    pools: &[u8],
    tables: &[u32],
    pool_lengths: &[u32],
    table_lengths: &[u32],
    store: u32,
    user: u32,
    price: u32,
) -> Result<[u32; 16], Refusal>
    ensures { bill_result result ≡ chain_bill (chain_of pools.now tables.now pool_lengths.now table_lengths.now) store user price }
{
    let p = chain_check::find_store(pools, tables, pool_lengths, table_lengths, store)?;
    user_calls::bill(&pools[p.from..p.end], &tables[p.at..p.stop], user, price)
}

// A version as a stream.
pub fn write_stream(
    pools: &[u8],
    tables: &[u32],
    pool_lengths: &[u32],
    table_lengths: &[u32],
    store: u32,
    user: u32,
    till: u32,
    version: u32,
    output: &mut [u8],
) -> Result<u32, Refusal>
    ensures { write_result result output.new ≡ chain_write_stream (chain_of pools.now tables.now pool_lengths.now table_lengths.now) store user till version output.old }
{
    let p = chain_check::find_store(pools, tables, pool_lengths, table_lengths, store)?;
    user_calls::write_stream(
        &pools[p.from..p.end],
        &tables[p.at..p.stop],
        user,
        till,
        version,
        output,
    )
}

// The first message of a till that sends only what the box lacks.
pub fn offer(
    pools: &[u8],
    tables: &[u32],
    pool_lengths: &[u32],
    table_lengths: &[u32],
    store: u32,
    user: u32,
    till: u32,
    fingerprints: &[u8],
    marks: &mut [u8],
) -> Result<(), Refusal>
    ensures { offered (refusal_of result) marks.new ≡ chain_offer (chain_of pools.now tables.now pool_lengths.now table_lengths.now) store user till fingerprints.now marks.old }
{
    let p = chain_check::find_store(pools, tables, pool_lengths, table_lengths, store)?;
    user_calls::offer(
        &pools[p.from..p.end],
        &tables[p.at..p.stop],
        user,
        till,
        fingerprints,
        marks,
    )
}

// The second message.
pub fn backup_sent(
    pools: &mut [u8],
    tables: &mut [u32],
    pool_lengths: &[u32],
    table_lengths: &[u32],
    store: u32,
    limit: u32,
    user: u32,
    till: u32,
    length: u32,
    fingerprints: &[u8],
    marks: &[u8],
    segments: &[u8],
) -> Result<u32, Refusal>
    ensures { backup_result result pools.new tables.new ≡ chain_backup_sent (chain_of pools.old tables.old pool_lengths.now table_lengths.now) store limit user till length fingerprints.now marks.now segments.now }
{
    let p = chain_check::find_store(pools, tables, pool_lengths, table_lengths, store)?;
    let limited = limit_beside(pools, tables, pool_lengths, table_lengths, store, limit);
    user_calls::backup_sent(
        &mut pools[p.from..p.end],
        &mut tables[p.at..p.stop],
        user,
        till,
        length,
        fingerprints,
        marks,
        segments,
        limited,
    )
}

// All tills at closing: each image is a backup by itself, with the limit for each.
pub fn backup_all(
    pools: &mut [u8],
    tables: &mut [u32],
    pool_lengths: &[u32],
    table_lengths: &[u32],
    store: u32,
    limit: u32,
    user: u32,
    tills: &[u32],
    lengths: &[u32],
    images: &[u8],
) -> Result<Each, Refusal>
    ensures { closing_result result pools.new tables.new ≡ chain_backup_all (chain_of pools.old tables.old pool_lengths.now table_lengths.now) store limit user tills.now lengths.now images.now }
{
    let p = chain_check::find_store(pools, tables, pool_lengths, table_lengths, store)?;
    let limited = limit_beside(pools, tables, pool_lengths, table_lengths, store, limit);
    closing_backup::back_up_all(
        &mut pools[p.from..p.end],
        &mut tables[p.at..p.stop],
        user,
        tills,
        lengths,
        images,
        limited,
    )
}

// The owner sets what another user may do with a till.
pub fn set_rights(
    pools: &[u8],
    tables: &mut [u32],
    pool_lengths: &[u32],
    table_lengths: &[u32],
    store: u32,
    user: u32,
    subject: u32,
    till: u32,
    rights: Rights,
) -> Result<(), Refusal>
    ensures { rights_answered (refusal_of result) tables.new ≡ chain_set_rights (chain_of pools.now tables.old pool_lengths.now table_lengths.now) store user subject till (rights_given rights) }
{
    let p = chain_check::find_store(pools, tables, pool_lengths, table_lengths, store)?;
    rights::set_rights(
        &pools[p.from..p.end],
        &mut tables[p.at..p.stop],
        user,
        subject,
        till,
        rights,
    )
}
