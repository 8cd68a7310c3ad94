// The calls as C sees them (include/lurdempos.h): each passes its arguments on, and its contract is the call's.
#![tactic(auto)]

pub mod chains;

ghost use Rattle.std.specs.Prelude.{◌≡◌};
ghost use Rattle.std.proofs.Math.Option.{none, some};
ghost use Rattle.model.specs.Image.{with_blanks};
ghost use Rattle.model.specs.Calls.{table_length_of, layout_of};
ghost use Rattle.model.specs.Rights.{backup_as, restore_as, retire_as, listing_as, version_on_as, tally_as, set_rights_of};
ghost use Rattle.stream.specs.Stream.{read_stream};
ghost use Rattle.stream.specs.Version.{write_stream_as};
ghost use Rattle.sha1_definition.specs.Sha1.{digest};
ghost use Rattle.sent.specs.Sent.{offer_as, backup_sent_as};
ghost use Rattle.sent_offer.specs.Offer.{offered};
ghost use Rattle.closing.specs.Closing.{backup_all_as};
ghost use Rattle.bill.specs.Bill.{bill_as};
ghost use Rattle.rights.specs.Answers.{rights_answered};
ghost use Rattle.dispatcher.specs.Turns.{turn_of};
ghost use Rattle.layout.specs.Layout.{layout_answer};
ghost use Rattle.lurdempos.specs.Boundary.{the_eight, the_four};
ghost use Rattle.answers.specs.Answers.{length_answer, backed_up_answer, restore_answer, retired_answer, listing_answer, version_found, tally_answer, billed, stream_written, stream_read, all_backed_up};

use answers::{
    AllBackedUp, BackedUp, Bill, LaidOut, Listing, Offered, Restored, Retired, RightsSet,
    StreamRead, StreamWritten, TableLength, Tally, VersionFound,
};
use dispatcher::{Stepped, Turn};
use layout::Capacities;
use numbers::Measures;
use rights::Rights;
use sha1_definition::Digest;

#[unsafe(no_mangle)]
pub extern "C" fn lurdempos_table_length(
    tills: u32,
    versions: u32,
    blocks: u32,
    records: u32,
    cells: u32,
    block_bytes: u32,
    segment_blocks: u32,
    rebuild_percent: u32,
) -> TableLength
    ensures { length_answer result ≡ table_length_of (the_eight tills versions blocks records cells block_bytes segment_blocks rebuild_percent) }
{
    store::table_length(Capacities {
        tills,
        versions,
        blocks,
        records,
        cells,
        measures: Measures {
            bytes: block_bytes as usize,
            blocks: segment_blocks as usize,
            percent: rebuild_percent,
        },
    })
    .into()
}

#[unsafe(no_mangle)]
pub extern "C" fn lurdempos_lay_out(
    pool: &mut [u8],
    table: &mut [u32],
    tills: u32,
    versions: u32,
    blocks: u32,
    records: u32,
    cells: u32,
    block_bytes: u32,
    segment_blocks: u32,
    rebuild_percent: u32,
) -> LaidOut
    ensures { layout_answer result.refusal pool.new table.new ≡ layout_of (the_eight tills versions blocks records cells block_bytes segment_blocks rebuild_percent) pool.old table.old }
{
    store::lay_out(
        pool,
        table,
        Capacities {
            tills,
            versions,
            blocks,
            records,
            cells,
            measures: Measures {
                bytes: block_bytes as usize,
                blocks: segment_blocks as usize,
                percent: rebuild_percent,
            },
        },
    )
    .into()
}

#[unsafe(no_mangle)]
pub extern "C" fn lurdempos_backup(
    pool: &mut [u8],
    table: &mut [u32],
    user: u32,
    till: u32,
    image: &[u8],
) -> BackedUp
    ensures { backed_up_answer result pool.new table.new ≡ backup_as with_blanks pool.old table.old user till none image.now }
{
    store::backup(pool, table, user, till, image).into()
}

#[unsafe(no_mangle)]
pub extern "C" fn lurdempos_backup_dated(
    pool: &mut [u8],
    table: &mut [u32],
    user: u32,
    till: u32,
    day: u32,
    image: &[u8],
) -> BackedUp
    ensures { backed_up_answer result pool.new table.new ≡ backup_as with_blanks pool.old table.old user till (some day) image.now }
{
    store::backup_dated(pool, table, user, till, day, image).into()
}

#[unsafe(no_mangle)]
pub extern "C" fn lurdempos_restore(
    pool: &[u8],
    table: &[u32],
    user: u32,
    till: u32,
    version: u32,
    output: &mut [u8],
) -> Restored
    ensures { restore_answer result output.new ≡ restore_as pool.now table.now user till version output.old }
{
    store::restore(pool, table, user, till, version, output).into()
}

#[unsafe(no_mangle)]
pub extern "C" fn lurdempos_retire(
    pool: &mut [u8],
    table: &mut [u32],
    user: u32,
    till: u32,
    version: u32,
) -> Retired
    ensures { retired_answer result pool.new table.new ≡ retire_as pool.old table.old user till version }
{
    store::retire(pool, table, user, till, version).into()
}

#[unsafe(no_mangle)]
pub extern "C" fn lurdempos_listing(pool: &[u8], table: &[u32], user: u32, till: u32) -> Listing
    ensures { listing_answer result ≡ listing_as pool.now table.now user till }
{
    store::listing(pool, table, user, till).into()
}

#[unsafe(no_mangle)]
pub extern "C" fn lurdempos_version_on(
    pool: &[u8],
    table: &[u32],
    user: u32,
    till: u32,
    day: u32,
) -> VersionFound
    ensures { version_found result ≡ version_on_as pool.now table.now user till day }
{
    store::version_on(pool, table, user, till, day).into()
}

#[unsafe(no_mangle)]
pub extern "C" fn lurdempos_tally(pool: &[u8], table: &[u32], user: u32) -> Tally
    ensures { tally_answer result ≡ tally_as pool.now table.now user }
{
    store::tally(pool, table, user).into()
}

#[unsafe(no_mangle)]
pub extern "C" fn lurdempos_bill(pool: &[u8], table: &[u32], user: u32, price: u32) -> Bill
    ensures { billed result ≡ bill_as pool.now table.now user price }
{
    store::bill(pool, table, user, price).into()
}

#[unsafe(no_mangle)]
pub extern "C" fn lurdempos_write_stream(
    pool: &[u8],
    table: &[u32],
    user: u32,
    till: u32,
    version: u32,
    output: &mut [u8],
) -> StreamWritten
    ensures { stream_written result output.new ≡ write_stream_as pool.now table.now user till version output.old }
{
    store::write_stream(pool, table, user, till, version, output).into()
}

#[unsafe(no_mangle)]
pub extern "C" fn lurdempos_read_stream(stream: &[u8], output: &mut [u8]) -> StreamRead
    ensures { stream_read result output.new ≡ read_stream stream.now output.old }
{
    stream_read::read_stream(stream, output).into()
}

#[unsafe(no_mangle)]
pub extern "C" fn lurdempos_offer(
    pool: &[u8],
    table: &[u32],
    user: u32,
    till: u32,
    fingerprints: &[u8],
    marks: &mut [u8],
) -> Offered
    ensures { offered result.refusal marks.new ≡ offer_as pool.now table.now user till fingerprints.now marks.old }
{
    store::offer(pool, table, user, till, fingerprints, marks).into()
}

#[unsafe(no_mangle)]
pub extern "C" fn lurdempos_backup_sent(
    pool: &mut [u8],
    table: &mut [u32],
    user: u32,
    till: u32,
    length: u32,
    fingerprints: &[u8],
    marks: &[u8],
    segments: &[u8],
) -> BackedUp
    ensures { backed_up_answer result pool.new table.new ≡ backup_sent_as pool.old table.old user till length fingerprints.now marks.now segments.now }
{
    store::backup_sent(
        pool,
        table,
        user,
        till,
        length,
        fingerprints,
        marks,
        segments,
    )
    .into()
}

#[unsafe(no_mangle)]
pub extern "C" fn lurdempos_backup_all(
    pool: &mut [u8],
    table: &mut [u32],
    user: u32,
    tills: &[u32],
    lengths: &[u32],
    images: &[u8],
) -> AllBackedUp
    ensures { all_backed_up result pool.new table.new ≡ backup_all_as pool.old table.old user tills.now lengths.now images.now }
{
    store::backup_all(pool, table, user, tills, lengths, images).into()
}

#[unsafe(no_mangle)]
pub extern "C" fn lurdempos_set_rights(
    pool: &[u8],
    table: &mut [u32],
    user: u32,
    subject: u32,
    till: u32,
    list: bool,
    back_up: bool,
    restore: bool,
    retire: bool,
) -> RightsSet
    ensures { rights_answered result.refusal table.new ≡ set_rights_of pool.now table.old user subject till (the_four list back_up restore retire) }
{
    store::set_rights(
        pool,
        table,
        user,
        subject,
        till,
        Rights {
            list,
            back_up,
            restore,
            retire,
        },
    )
    .into()
}

#[unsafe(no_mangle)]
pub extern "C" fn lurdempos_sha1(message: &[u8]) -> Digest
    ensures { result ≡ digest message.now }
{
    sha1_message::sha1(message)
}

// The record comes and goes by value; between, it is kept here and lent to the dispatcher for the turn.
#[unsafe(no_mangle)]
pub extern "C" fn lurdempos_turn(turn: Turn) -> Stepped
    ensures { result ≡ turn_of turn }
{
    let mut kept = turn;
    let answer = dispatcher::take_turn(&mut kept);
    Stepped { answer, turn: kept }
}
