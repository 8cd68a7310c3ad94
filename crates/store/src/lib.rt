// The calls, on lent buffers. No call has a premise: what is no sound store is refused with 10, and then a user who may not make the call with 22 or 23.
#![tactic(auto)]

ghost use Rattle.std.specs.Prelude.{◌≡◌, cond};
ghost use Rattle.std.proofs.Math.Option.{none, some};
ghost use Rattle.model.specs.Image.{with_blanks};
ghost use Rattle.model.specs.Calls.{table_length_of, layout_of};
ghost use Rattle.model.specs.Rights.{backup_as, restore_as, retire_as, listing_as, version_on_as, tally_as, set_rights_of};
ghost use Rattle.lists.specs.Lists.{is_some};
ghost use Rattle.model.specs.Sound.{store_of};
ghost use Rattle.layout.specs.Layout.{shape, length_result, layout_answer};
ghost use Rattle.refusals.specs.Refusals.{refusal_of};
ghost use Rattle.backup.specs.Call.{backup_result};
ghost use Rattle.tills.specs.Answers.{listing_result, version_on_result};
ghost use Rattle.restore.specs.Answers.{restore_result};
ghost use Rattle.retire.specs.Answers.{retire_result};
ghost use Rattle.tally.specs.Answers.{tally_result};
ghost use Rattle.stream.specs.Version.{write_stream_as};
ghost use Rattle.stream_write.specs.Answers.{write_result};
ghost use Rattle.sent.specs.Sent.{offer_as, backup_sent_as};
ghost use Rattle.sent_offer.specs.Offer.{offered};
ghost use Rattle.closing.specs.Closing.{backup_all_as};
ghost use Rattle.closing_backup.specs.Answers.{closing_result};
ghost use Rattle.bill.specs.Bill.{bill_as};
ghost use Rattle.bill_sums.specs.Answers.{bill_result};
ghost use Rattle.rights.specs.Answers.{rights_given, rights_answered};

use backup_steps::Limit;
use closing_backup::Each;
use layout::Capacities;
use refusals::Refusal;
use restore::Image;
use rights::{Right, Rights};
use tally::Tallied;
use tills::Listed;

// What is no sound store is refused, whoever the user is.
fn check(pool: &[u8], table: &[u32]) -> Result<(), Refusal>
    ensures { refusal_of result ≡ cond (is_some (store_of pool.now table.now)) 0 10 }
{
    if !audit::sound(pool, table) {
        return Err(Refusal::Unsound);
    }
    Ok(())
}

pub fn table_length(c: Capacities) -> Result<u32, Refusal>
    ensures { length_result result ≡ table_length_of (shape c) }
{
    layout::table_length(c)
}

pub fn lay_out(pool: &mut [u8], table: &mut [u32], c: Capacities) -> Result<(), Refusal>
    ensures { layout_answer (refusal_of result) pool.new table.new ≡ layout_of (shape c) pool.old table.old }
{
    layout::lay_out(pool, table, c)
}

pub fn backup(
    pool: &mut [u8],
    table: &mut [u32],
    user: u32,
    till: u32,
    image: &[u8],
) -> Result<u32, Refusal>
    ensures { backup_result result pool.new table.new ≡ backup_as with_blanks pool.old table.old user till none image.now }
{
    check(pool, table)?;
    user_calls::backup(pool, table, user, till, image, Limit::none())
}

// With a day for the new version.
pub fn backup_dated(
    pool: &mut [u8],
    table: &mut [u32],
    user: u32,
    till: u32,
    day: u32,
    image: &[u8],
) -> Result<u32, Refusal>
    ensures { backup_result result pool.new table.new ≡ backup_as with_blanks pool.old table.old user till (some day) image.now }
{
    check(pool, table)?;
    user_calls::backup_dated(pool, table, user, till, day, image, Limit::none())
}

pub fn restore(
    pool: &[u8],
    table: &[u32],
    user: u32,
    till: u32,
    version: u32,
    output: &mut [u8],
) -> Result<Image, Refusal>
    ensures { restore_result result output.new ≡ restore_as pool.now table.now user till version output.old }
{
    check(pool, table)?;
    user_calls::restore(pool, table, user, till, version, output)
}

pub fn retire(
    pool: &mut [u8],
    table: &mut [u32],
    user: u32,
    till: u32,
    version: u32,
) -> Result<u32, Refusal>
    ensures { retire_result result pool.new table.new ≡ retire_as pool.old table.old user till version }
{
    check(pool, table)?;
    user_calls::retire(pool, table, user, till, version)
}

pub fn listing(pool: &[u8], table: &[u32], user: u32, till: u32) -> Result<Listed, Refusal>
    ensures { listing_result result ≡ listing_as pool.now table.now user till }
{
    check(pool, table)?;
    user_calls::listing(pool, table, user, till)
}

// The version of a day: the newest one held that is not after it.
pub fn version_on(
    pool: &[u8],
    table: &[u32],
    user: u32,
    till: u32,
    day: u32,
) -> Result<u32, Refusal>
    ensures { version_on_result result ≡ version_on_as pool.now table.now user till day }
{
    check(pool, table)?;
    user_calls::version_on(pool, table, user, till, day)
}

// The owner's only.
pub fn tally(pool: &[u8], table: &[u32], user: u32) -> Result<Tallied, Refusal>
    ensures { tally_result result ≡ tally_as pool.now table.now user }
{
    check(pool, table)?;
    user_calls::tally(pool, table, user)
}

// What each till has to pay for the occupied cells; the owner's only.
pub fn bill(pool: &[u8], table: &[u32], user: u32, price: u32) -> Result<[u32; 16], Refusal>
    ensures { bill_result result ≡ bill_as pool.now table.now user price }
{
    check(pool, table)?;
    user_calls::bill(pool, table, user, price)
}

// A version as a stream.
pub fn write_stream(
    pool: &[u8],
    table: &[u32],
    user: u32,
    till: u32,
    version: u32,
    output: &mut [u8],
) -> Result<u32, Refusal>
    ensures { write_result result output.new ≡ write_stream_as pool.now table.now user till version output.old }
{
    check(pool, table)?;
    user_calls::write_stream(pool, table, user, till, version, output)
}

// The first message of a till that sends only what the box lacks: the marks of what it has.
pub fn offer(
    pool: &[u8],
    table: &[u32],
    user: u32,
    till: u32,
    fingerprints: &[u8],
    marks: &mut [u8],
) -> Result<(), Refusal>
    ensures { offered (refusal_of result) marks.new ≡ offer_as pool.now table.now user till fingerprints.now marks.old }
{
    // Kept: the line with `?` is that of every call, and an edit has to spoil this one alone.
    if let Err(unsound) = check(pool, table) {
        return Err(unsound);
    }
    user_calls::offer(pool, table, user, till, fingerprints, marks)
}

// The second: the length, all fingerprints, the marks of the segments that follow, and these.
pub fn backup_sent(
    pool: &mut [u8],
    table: &mut [u32],
    user: u32,
    till: u32,
    length: u32,
    fingerprints: &[u8],
    marks: &[u8],
    segments: &[u8],
) -> Result<u32, Refusal>
    ensures { backup_result result pool.new table.new ≡ backup_sent_as pool.old table.old user till length fingerprints.now marks.now segments.now }
{
    check(pool, table)?;
    user_calls::backup_sent(
        pool,
        table,
        user,
        till,
        length,
        fingerprints,
        marks,
        segments,
        Limit::none(),
    )
}

// All tills at closing: the images lie end to end. One check serves for all of them, and the user's right is asked for each.
pub fn backup_all(
    pool: &mut [u8],
    table: &mut [u32],
    user: u32,
    tills: &[u32],
    lengths: &[u32],
    images: &[u8],
) -> Result<Each, Refusal>
    ensures { closing_result result pool.new table.new ≡ backup_all_as pool.old table.old user tills.now lengths.now images.now }
{
    check(pool, table)?;
    closing_backup::back_up_all(pool, table, user, tills, lengths, images, Limit::none())
}

// The owner sets what another user may do with a till.
pub fn set_rights(
    pool: &[u8],
    table: &mut [u32],
    user: u32,
    subject: u32,
    till: u32,
    rights: Rights,
) -> Result<(), Refusal>
    ensures { rights_answered (refusal_of result) table.new ≡ set_rights_of pool.now table.old user subject till (rights_given rights) }
{
    // Kept: the line with `?` is that of every call, and an edit has to spoil this one alone.
    if let Err(no_store) = check(pool, table) {
        return Err(no_store);
    }
    rights::set_rights(pool, table, user, subject, till, rights)
}
