// The calls of a user on a sound store: who may not make the call is refused with 22 or 23, and everyone else gets the call's own answer. Those that back
// up bring the limit of a chain.
#![tactic(auto)]

ghost use Rattle.std.specs.Prelude.{◌≡◌, ◌≤◌};
ghost use Rattle.std.proofs.Math.Option.{none, some};
ghost use Rattle.model.specs.Image.{with_blanks};
ghost use Rattle.model.specs.Rights.{backup_as, restore_as, retire_as, listing_as, version_on_as, tally_as};
ghost use Rattle.laws.specs.Stores.{Sound};
ghost use Rattle.chain.specs.Limit.{within};
ghost use Rattle.refusals.specs.Refusals.{refusal_of};
ghost use Rattle.backup.specs.Call.{backup_result};
ghost use Rattle.tills.specs.Answers.{listing_result, version_on_result};
ghost use Rattle.restore.specs.Answers.{restore_result};
ghost use Rattle.retire.specs.Answers.{retire_result};
ghost use Rattle.tally.specs.Answers.{tally_result};
ghost use Rattle.stream.specs.Version.{write_stream_as};
ghost use Rattle.stream_write.specs.Answers.{write_result};
ghost use Rattle.sent.specs.Sent.{offer_as, backup_sent_as};
ghost use Rattle.sent_offer.specs.Offer.{offered};
ghost use Rattle.bill.specs.Bill.{bill_as};
ghost use Rattle.bill_sums.specs.Answers.{bill_result};

use backup_steps::Limit;
use refusals::Refusal;
use restore::Image;
use rights::Right;
use tally::Tallied;
use tills::Listed;

pub fn backup(
    pool: &mut [u8],
    table: &mut [u32],
    user: u32,
    till: u32,
    image: &[u8],
    limit: Limit,
) -> Result<u32, Refusal>
    requires { Sound pool.old table.old × (limit.others ≤ 524288) }
    ensures { backup_result result pool.new table.new ≡ within limit.others limit.most pool.old table.old (backup_as with_blanks pool.old table.old user till none image.now) }
{
    rights::refusal(pool, table, user, till, Right::BackUp)?;
    backup::back_up(pool, table, till, image, limit)
}

// With a day for the new version.
pub fn backup_dated(
    pool: &mut [u8],
    table: &mut [u32],
    user: u32,
    till: u32,
    day: u32,
    image: &[u8],
    limit: Limit,
) -> Result<u32, Refusal>
    requires { Sound pool.old table.old × (limit.others ≤ 524288) }
    ensures { backup_result result pool.new table.new ≡ within limit.others limit.most pool.old table.old (backup_as with_blanks pool.old table.old user till (some day) image.now) }
{
    rights::refusal(pool, table, user, till, Right::BackUp)?;
    backup::back_up_dated(pool, table, till, day, image, limit)
}

pub fn restore(
    pool: &[u8],
    table: &[u32],
    user: u32,
    till: u32,
    version: u32,
    output: &mut [u8],
) -> Result<Image, Refusal>
    requires { Sound pool.now table.now }
    ensures { restore_result result output.new ≡ restore_as pool.now table.now user till version output.old }
{
    rights::refusal(pool, table, user, till, Right::Restore)?;
    restore::restore_version(pool, table, till, version, output)
}

pub fn retire(
    pool: &mut [u8],
    table: &mut [u32],
    user: u32,
    till: u32,
    version: u32,
) -> Result<u32, Refusal>
    requires { Sound pool.old table.old }
    ensures { retire_result result pool.new table.new ≡ retire_as pool.old table.old user till version }
{
    rights::refusal(pool, table, user, till, Right::Retire)?;
    retire::retire_version(pool, table, till, version)
}

pub fn listing(pool: &[u8], table: &[u32], user: u32, till: u32) -> Result<Listed, Refusal>
    requires { Sound pool.now table.now }
    ensures { listing_result result ≡ listing_as pool.now table.now user till }
{
    rights::refusal(pool, table, user, till, Right::List)?;
    tills::list_till(pool, table, till)
}

// The version of a day: the newest one held that is not after it.
pub fn version_on(
    pool: &[u8],
    table: &[u32],
    user: u32,
    till: u32,
    day: u32,
) -> Result<u32, Refusal>
    requires { Sound pool.now table.now }
    ensures { version_on_result result ≡ version_on_as pool.now table.now user till day }
{
    rights::refusal(pool, table, user, till, Right::List)?;
    tills::version_on(pool, table, till, day)
}

// The owner's only.
pub fn tally(pool: &[u8], table: &[u32], user: u32) -> Result<Tallied, Refusal>
    requires { Sound pool.now table.now }
    ensures { tally_result result ≡ tally_as pool.now table.now user }
{
    rights::owner_refusal(user)?;
    Ok(tally::tally_store(pool, table))
}

// What each till has to pay for the occupied cells; the owner's only.
pub fn bill(pool: &[u8], table: &[u32], user: u32, price: u32) -> Result<[u32; 16], Refusal>
    requires { Sound pool.now table.now }
    ensures { bill_result result ≡ bill_as pool.now table.now user price }
{
    let owner = rights::owner_refusal(user);
    owner?;
    bill_sums::bill_store(pool, table, price)
}

// A version as a stream.
pub fn write_stream(
    pool: &[u8],
    table: &[u32],
    user: u32,
    till: u32,
    version: u32,
    output: &mut [u8],
) -> Result<u32, Refusal>
    requires { Sound pool.now table.now }
    ensures { write_result result output.new ≡ write_stream_as pool.now table.now user till version output.old }
{
    // A stream asks for the right that a restore asks for.
    let right = Right::Restore;
    rights::refusal(pool, table, user, till, right)?;
    stream_version::write_version(pool, table, till, version, output)
}

// The first message of a till that sends only what the box lacks: the marks of what it has.
pub fn offer(
    pool: &[u8],
    table: &[u32],
    user: u32,
    till: u32,
    fingerprints: &[u8],
    marks: &mut [u8],
) -> Result<(), Refusal>
    requires { Sound pool.now table.now }
    ensures { offered (refusal_of result) marks.new ≡ offer_as pool.now table.now user till fingerprints.now marks.old }
{
    rights::refusal(pool, table, user, till, Right::BackUp)?;
    sent_offer::offer_segments(pool, table, till, fingerprints, marks)
}

// The second: the length, all fingerprints, the marks of the segments that follow, and these.
pub fn backup_sent(
    pool: &mut [u8],
    table: &mut [u32],
    user: u32,
    till: u32,
    length: u32,
    fingerprints: &[u8],
    marks: &[u8],
    segments: &[u8],
    limit: Limit,
) -> Result<u32, Refusal>
    requires { Sound pool.old table.old × (limit.others ≤ 524288) }
    ensures { backup_result result pool.new table.new ≡ within limit.others limit.most pool.old table.old (backup_sent_as pool.old table.old user till length fingerprints.now marks.now segments.now) }
{
    rights::refusal(pool, table, user, till, Right::BackUp)?;
    sent_backup::back_up_sent(
        pool,
        table,
        till,
        length,
        fingerprints,
        marks,
        segments,
        limit,
    )
}
