// The calls on a chain of stores, as C sees them: the chain's buffers, the lengths of their parts, the store's number, and then the call's own arguments.
ghost use Rattle.std.specs.Prelude.{◌≡◌};
ghost use Rattle.std.proofs.Math.Option.{none, some};
ghost use Rattle.model.specs.Image.{with_blanks};
ghost use Rattle.sent_offer.specs.Offer.{offered};
ghost use Rattle.rights.specs.Answers.{rights_answered};
ghost use Rattle.chain.specs.Chain.{chain_of};
ghost use Rattle.chain.specs.Calls.{chain_backup, chain_restore, chain_retire, chain_listing, chain_version_on, chain_tally, chain_bill, chain_write_stream, chain_offer, chain_backup_sent, chain_backup_all, chain_set_rights};
ghost use Rattle.lurdempos.specs.Boundary.{the_four};
ghost use Rattle.answers.specs.Answers.{backed_up_answer, restore_answer, retired_answer, listing_answer, version_found, tally_answer, billed, stream_written, all_backed_up};

use answers::{
    AllBackedUp, BackedUp, Bill, Listing, Offered, Restored, Retired, RightsSet, StreamWritten,
    Tally, VersionFound,
};
use rights::Rights;

#[unsafe(no_mangle)]
pub extern "C" fn lurdempos_chain_backup(
    pools: &mut [u8],
    tables: &mut [u32],
    pool_lengths: &[u32],
    table_lengths: &[u32],
    store: u32,
    limit: u32,
    user: u32,
    till: u32,
    image: &[u8],
) -> BackedUp
    ensures { backed_up_answer result pools.new tables.new ≡ chain_backup with_blanks (chain_of pools.old tables.old pool_lengths.now table_lengths.now) store limit user till none image.now }
{
    chain_calls::backup(
        pools,
        tables,
        pool_lengths,
        table_lengths,
        store,
        limit,
        user,
        till,
        image,
    )
    .into()
}

#[unsafe(no_mangle)]
pub extern "C" fn lurdempos_chain_backup_dated(
    pools: &mut [u8],
    tables: &mut [u32],
    pool_lengths: &[u32],
    table_lengths: &[u32],
    store: u32,
    limit: u32,
    user: u32,
    till: u32,
    day: u32,
    image: &[u8],
) -> BackedUp
    ensures { backed_up_answer result pools.new tables.new ≡ chain_backup with_blanks (chain_of pools.old tables.old pool_lengths.now table_lengths.now) store limit user till (some day) image.now }
{
    chain_calls::backup_dated(
        pools,
        tables,
        pool_lengths,
        table_lengths,
        store,
        limit,
        user,
        till,
        day,
        image,
    )
    .into()
}

#[unsafe(no_mangle)]
pub extern "C" fn lurdempos_chain_restore(
    pools: &[u8],
    tables: &[u32],
    pool_lengths: &[u32],
    table_lengths: &[u32],
    store: u32,
    user: u32,
    till: u32,
    version: u32,
    output: &mut [u8],
) -> Restored
    ensures { restore_answer result output.new ≡ chain_restore (chain_of pools.now tables.now pool_lengths.now table_lengths.now) store user till version output.old }
{
    chain_calls::restore(
        pools,
        tables,
        pool_lengths,
        table_lengths,
        store,
        user,
        till,
        version,
        output,
    )
    .into()
}

#[unsafe(no_mangle)]
pub extern "C" fn lurdempos_chain_retire(
    pools: &mut [u8],
    tables: &mut [u32],
    pool_lengths: &[u32],
    table_lengths: &[u32],
    store: u32,
    user: u32,
    till: u32,
    version: u32,
) -> Retired
    ensures { retired_answer result pools.new tables.new ≡ chain_retire (chain_of pools.old tables.old pool_lengths.now table_lengths.now) store user till version }
{
    chain_calls::retire(
        pools,
        tables,
        pool_lengths,
        table_lengths,
        store,
        user,
        till,
        version,
    )
    .into()
}

#[unsafe(no_mangle)]
pub extern "C" fn lurdempos_chain_listing(
    pools: &[u8],
    tables: &[u32],
    pool_lengths: &[u32],
    table_lengths: &[u32],
    store: u32,
    user: u32,
    till: u32,
) -> Listing
    ensures { listing_answer result ≡ chain_listing (chain_of pools.now tables.now pool_lengths.now table_lengths.now) store user till }
{
    chain_calls::listing(
        pools,
        tables,
        pool_lengths,
        table_lengths,
        store,
        user,
        till,
    )
    .into()
}

#[unsafe(no_mangle)]
pub extern "C" fn lurdempos_chain_version_on(
    pools: &[u8],
    tables: &[u32],
    pool_lengths: &[u32],
    table_lengths: &[u32],
    store: u32,
    user: u32,
    till: u32,
    day: u32,
) -> VersionFound
    ensures { version_found result ≡ chain_version_on (chain_of pools.now tables.now pool_lengths.now table_lengths.now) store user till day }
{
    chain_calls::version_on(
        pools,
        tables,
        pool_lengths,
        table_lengths,
        store,
        user,
        till,
        day,
    )
    .into()
}

#[unsafe(no_mangle)]
pub extern "C" fn lurdempos_chain_tally(
    pools: &[u8],
    tables: &[u32],
    pool_lengths: &[u32],
    table_lengths: &[u32],
    store: u32,
    user: u32,
) -> Tally
    ensures { tally_answer result ≡ chain_tally (chain_of pools.now tables.now pool_lengths.now table_lengths.now) store user }
{
    chain_calls::tally(pools, tables, pool_lengths, table_lengths, store, user).into()
}

#[unsafe(no_mangle)]
pub extern "C" fn lurdempos_chain_bill(
    pools: &[u8],
    tables: &[u32],
    pool_lengths: &[u32],
    table_lengths: &[u32],
    store: u32,
    user: u32,
    price: u32,
) -> Bill
    ensures { billed result ≡ chain_bill (chain_of pools.now tables.now pool_lengths.now table_lengths.now) store user price }
{
    chain_calls::bill(
        pools,
        tables,
        pool_lengths,
        table_lengths,
        store,
        user,
        price,
    )
    .into()
}

#[unsafe(no_mangle)]
pub extern "C" fn lurdempos_chain_write_stream(
    pools: &[u8],
    tables: &[u32],
    pool_lengths: &[u32],
    table_lengths: &[u32],
    store: u32,
    user: u32,
    till: u32,
    version: u32,
    output: &mut [u8],
) -> StreamWritten
    ensures { stream_written result output.new ≡ chain_write_stream (chain_of pools.now tables.now pool_lengths.now table_lengths.now) store user till version output.old }
{
    chain_calls::write_stream(
        pools,
        tables,
        pool_lengths,
        table_lengths,
        store,
        user,
        till,
        version,
        output,
    )
    .into()
}

#[unsafe(no_mangle)]
pub extern "C" fn lurdempos_chain_offer(
    pools: &[u8],
    tables: &[u32],
    pool_lengths: &[u32],
    table_lengths: &[u32],
    store: u32,
    user: u32,
    till: u32,
    fingerprints: &[u8],
    marks: &mut [u8],
) -> Offered
    ensures { offered result.refusal marks.new ≡ chain_offer (chain_of pools.now tables.now pool_lengths.now table_lengths.now) store user till fingerprints.now marks.old }
{
    chain_calls::offer(
        pools,
        tables,
        pool_lengths,
        table_lengths,
        store,
        user,
        till,
        fingerprints,
        marks,
    )
    .into()
}

#[unsafe(no_mangle)]
pub extern "C" fn lurdempos_chain_backup_sent(
    pools: &mut [u8],
    tables: &mut [u32],
    pool_lengths: &[u32],
    table_lengths: &[u32],
    store: u32,
    limit: u32,
    user: u32,
    till: u32,
    length: u32,
    fingerprints: &[u8],
    marks: &[u8],
    segments: &[u8],
) -> BackedUp
    ensures { backed_up_answer result pools.new tables.new ≡ chain_backup_sent (chain_of pools.old tables.old pool_lengths.now table_lengths.now) store limit user till length fingerprints.now marks.now segments.now }
{
    chain_calls::backup_sent(
        pools,
        tables,
        pool_lengths,
        table_lengths,
        store,
        limit,
        user,
        till,
        length,
        fingerprints,
        marks,
        segments,
    )
    .into()
}

#[unsafe(no_mangle)]
pub extern "C" fn lurdempos_chain_backup_all(
    pools: &mut [u8],
    tables: &mut [u32],
    pool_lengths: &[u32],
    table_lengths: &[u32],
    store: u32,
    limit: u32,
    user: u32,
    tills: &[u32],
    lengths: &[u32],
    images: &[u8],
) -> AllBackedUp
    ensures { all_backed_up result pools.new tables.new ≡ chain_backup_all (chain_of pools.old tables.old pool_lengths.now table_lengths.now) store limit user tills.now lengths.now images.now }
{
    chain_calls::backup_all(
        pools,
        tables,
        pool_lengths,
        table_lengths,
        store,
        limit,
        user,
        tills,
        lengths,
        images,
    )
    .into()
}

#[unsafe(no_mangle)]
pub extern "C" fn lurdempos_chain_set_rights(
    pools: &[u8],
    tables: &mut [u32],
    pool_lengths: &[u32],
    table_lengths: &[u32],
    store: u32,
    user: u32,
    subject: u32,
    till: u32,
    list: bool,
    back_up: bool,
    restore: bool,
    retire: bool,
) -> RightsSet
    ensures { rights_answered result.refusal tables.new ≡ chain_set_rights (chain_of pools.now tables.old pool_lengths.now table_lengths.now) store user subject till (the_four list back_up restore retire) }
{
    chain_calls::set_rights(
        pools,
        tables,
        pool_lengths,
        table_lengths,
        store,
        user,
        subject,
        till,
        Rights {
            list,
            back_up,
            restore,
            retire,
        },
    )
    .into()
}
