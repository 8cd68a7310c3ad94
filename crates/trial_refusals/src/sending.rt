// Both messages, on a store of 1 till, 4 versions, 16 blocks per image, 8 records and 32 cells: an image of 576 bytes, two segments.
ghost use Rattle.std.specs.Prelude.{◌≤◌};

use answers::BackedUp;
use layout::Capacities;
use numbers::Measures;
use refusals::{Refusal, answered};
use trial_draw::images;
use trial_report::counts;

fn capacities() -> Capacities {
    Capacities {
        tills: 1,
        versions: 4,
        blocks: 16,
        records: 8,
        cells: 32,
        measures: Measures::base(),
    }
}

// A first message is refused, and the marks stay.
fn refuse_offer(
    prints: &[u8],
    marks: &mut [u8],
    pool: &[u8],
    table: &[u32],
    counts: &mut [u64],
    expected: Refusal,
) {
    trial_compare::mark(marks);
    let refusal = answered(&store::offer(pool, table, 0, 0, prints, marks));
    counts::answered(counts, counts::OFFERS, refusal, u32::from(expected));
    counts::expect_unaltered(counts, trial_compare::unmarked(marks) == 0);
}

// A fingerprint and part of one, and one mark for two.
fn offered_wrong(prints: &[u8], pool: &[u8], table: &[u32], counts: &mut [u64]) {
    let mut marks = [0u8; 1];
    let part = b"part of a fingerprint";
    refuse_offer(part, &mut marks, pool, table, counts, Refusal::ImageLength);
    refuse_offer(
        prints,
        &mut marks,
        pool,
        table,
        counts,
        Refusal::ImageLength,
    );
}

// On what is no sound store.
fn offered_unsound(prints: &[u8], pool: &[u8], table: &[u32], counts: &mut [u64]) {
    let mut marks = [0u8; 2];
    refuse_offer(prints, &mut marks, pool, table, counts, Refusal::Unsound);
}

// What can follow a second message: the segments of the image, those of another one, nothing.
#[derive(Clone, Copy)]
enum Follows {
    Image,
    Other,
    Nothing,
}

// As many bytes as the image has, whole segments of them.
const WHOLE: usize = 1024;

// Where it starts among the segments, of which the other's follow the image's.
fn start_of(follows: Follows) -> usize
    ensures { result ≤ 2048 }
{
    match follows {
        Follows::Image => 0,
        Follows::Other => WHOLE,
        Follows::Nothing => 2 * WHOLE,
    }
}

// A second message: the length, both marks, what follows; the version that is expected, or the refusal.
#[derive(Clone, Copy)]
struct Message {
    bytes: u32,
    first: u8,
    second: u8,
    follows: Follows,
    expected: Result<u32, Refusal>,
}

fn refused(bytes: u32, first: u8, second: u8, follows: Follows, expected: Refusal) -> Message {
    Message {
        bytes,
        first,
        second,
        follows,
        expected: Err(expected),
    }
}

fn taken(mark: u8, follows: Follows, version: u32) -> Message {
    Message {
        bytes: 576,
        first: mark,
        second: mark,
        follows,
        expected: Ok(version),
    }
}

// All sent, of which one has another fingerprint, or a byte follows the length; one mark of 2 for two of 1; nothing sent that the box lacks, then all. Now the
// box has the image and nothing needs to be sent; but a byte follows a lesser length. The last is for what is no sound store.
fn message_of(n: u32) -> Message {
    match n {
        0 => refused(576, 1, 1, Follows::Other, Refusal::OtherSegment),
        1 => refused(575, 1, 1, Follows::Image, Refusal::OtherSegment),
        2 => refused(576, 2, 0, Follows::Image, Refusal::ImageLength),
        3 => refused(576, 0, 0, Follows::Nothing, Refusal::NoSegment),
        4 => taken(1, Follows::Image, 1),
        5 => taken(0, Follows::Nothing, 2),
        6 => refused(575, 0, 0, Follows::Nothing, Refusal::OtherSegment),
        _ => refused(576, 1, 1, Follows::Image, Refusal::Unsound),
    }
}

// What follows has as many bytes as the image, if there are as many.
fn send(
    m: Message,
    prints: &[u8],
    segments: &[u8],
    pool: &mut [u8],
    table: &mut [u32],
    counts: &mut [u64],
) {
    let marks = [m.first, m.second];
    let from = start_of(m.follows).min(segments.len());
    let end = from + WHOLE.min(segments.len() - from);
    let a: BackedUp = store::backup_sent(
        pool,
        table,
        0,
        0,
        m.bytes,
        prints,
        &marks,
        &segments[from..end],
    )
    .into();
    let wanted = refusals::answered(&m.expected);
    counts::answered(counts, counts::BACKUPS, a.refusal, wanted);
    counts::expect(counts, a.version == m.expected.unwrap_or(0));
}

// A refusal leaves the buffers.
fn send_judged(
    m: Message,
    prints: &[u8],
    segments: &[u8],
    pool: &mut [u8],
    table: &mut [u32],
    counts: &mut [u64],
) {
    let mut bytes = [0u8; 2048];
    let mut entries = [0u32; 240];
    trial_compare::copy(pool, table, &mut bytes, &mut entries);
    send(m, prints, segments, pool, table, counts);
    if m.expected.is_err() {
        trial_judge::unaltered(&bytes, &entries, pool, table, counts);
    }
}

fn send_each(
    prints: &[u8],
    segments: &[u8],
    pool: &mut [u8],
    table: &mut [u32],
    counts: &mut [u64],
) {
    for n in 0..7 {
        send_judged(message_of(n), prints, segments, pool, table, counts);
    }
}

// With a reserved word of the till that is not zero, both are refused.
fn unsound(prints: &[u8], segments: &[u8], pool: &mut [u8], table: &mut [u32], counts: &mut [u64]) {
    trial_keeper::put_note(table, 11, 1);
    offered_unsound(prints, pool, table, counts);
    send_judged(message_of(7), prints, segments, pool, table, counts);
}

fn in_turn(prints: &[u8], segments: &[u8], pool: &mut [u8], table: &mut [u32], counts: &mut [u64]) {
    offered_wrong(prints, pool, table, counts);
    send_each(prints, segments, pool, table, counts);
    unsound(prints, segments, pool, table, counts);
}

fn on_store(prints: &[u8], segments: &[u8], counts: &mut [u64]) {
    let mut pool = [0u8; 2048];
    let mut table = [0u32; 240];
    trial_calls::lay_out(capacities(), &mut pool, &mut table, counts, 0);
    in_turn(prints, segments, &mut pool, &mut table, counts);
}

// The image's segments, with null blocks up to the end, then the other's.
fn spelt(prints: &mut [u8], segments: &mut [u8], counts: &mut [u64]) {
    images::spell(segments, b"ABCDEFGHI\0\0\0\0\0\0\0ZBCDEFGHI");
    let end = WHOLE.min(segments.len());
    trial_sent::print_all(&segments[..end], 512, prints);
    on_store(prints, segments, counts);
}

pub fn messages(counts: &mut [u64]) {
    let mut prints = [0u8; 40];
    let mut segments = [0u8; 2048];
    spelt(&mut prints, &mut segments, counts);
}
