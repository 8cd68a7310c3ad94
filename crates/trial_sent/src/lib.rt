// A backup by both messages: the fingerprints are offered, and the segments follow that are not had.
#![tactic(auto)]

ghost use Rattle.std.specs.Prelude.{◌≡◌, ◌<◌, ◌≤◌, length};

use answers::BackedUp;
use layout::Capacities;
use refusals::{Refusal, answered};
use trial_report::counts;

// The part goes to its place, if there is room.
fn put(part: &[u8], out: &mut [u8], at: usize) {
    if at <= out.len() && part.len() <= out.len() - at {
        out[at..at + part.len()].copy_from_slice(part);
    }
}

fn block_bytes(c: Capacities) -> usize
    ensures { (0 < result) × (result ≤ 512) }
{
    trial_keeper::block_bytes(c).max(1)
}

// Of a store in range, a segment's bytes.
pub fn segment_bytes(c: Capacities) -> usize
    ensures { (0 < result) × (result ≤ 8192) }
{
    let bytes = block_bytes(c);
    let m = c.measures;
    match m.blocks {
        4 => 4 * bytes,
        8 => 8 * bytes,
        _ => 16 * bytes,
    }
}

// How many segments hold an image; no image here has more than 16.
fn segments_for(width: usize, bytes: usize) -> usize
    requires { 0 < width }
    ensures { result ≤ 16 }
{
    bytes.div_ceil(width).min(16)
}

// The fingerprint of each segment.
pub fn print_all(image: &[u8], width: usize, prints: &mut [u8])
    requires { 0 < width }
{
    for (segment, print) in image.chunks_exact(width).zip(prints.chunks_exact_mut(20)) {
        print.copy_from_slice(&sha1_message::digest_bytes(sha1_message::sha1(segment)));
    }
}

// What is not had is sent.
fn turn(marks: &mut [u8]) {
    for mark in marks {
        *mark = u8::from(*mark != 1);
    }
}

// The marked segments, one after the other: how many bytes.
fn pack(image: &[u8], width: usize, marks: &[u8], out: &mut [u8]) -> usize
    requires { 0 < width }
{
    let mut n: usize = 0;
    for (segment, mark) in image.chunks_exact(width).zip(marks) {
        if *mark == 1 {
            put(segment, out, n);
            n = n.wrapping_add(segment.len());
        }
    }
    n
}

// Who sends for which till, and the answer that the page's order gives that.
#[derive(Clone, Copy)]
struct Sender {
    user: u32,
    till: u32,
    may: Result<(), Refusal>,
}

// The refusal that the page's order gives the first message.
fn offer_refusal(c: Capacities, sender: Sender, segments: usize) -> Result<(), Refusal> {
    sender.may?;
    let most = segments_for(segment_bytes(c), trial_keeper::image_bytes(c));
    if segments == 0 || most < segments {
        return Err(Refusal::ImageLength);
    }
    Ok(())
}

// A refusal leaves the marks; else each is 0 or 1.
fn judge_marks(refusal: u32, marks: &[u8], counts: &mut [u64]) {
    if refusal != 0 {
        counts::expect_unaltered(counts, trial_compare::unmarked(marks) == 0);
        return;
    }
    let had = trial_compare::others_than(0, marks) as u64;
    let sent = trial_compare::others_than(1, marks) as u64;
    counts::expect(counts, had.wrapping_add(sent) == marks.len() as u64);
    counts::add(counts, counts::HAD, had);
    counts::add(counts, counts::SENT, sent);
}

// The first message, after which the marks are turned round.
fn offer(
    c: Capacities,
    sender: Sender,
    pool: &[u8],
    table: &[u32],
    prints: &[u8],
    marks: &mut [u8],
    counts: &mut [u64],
) {
    trial_compare::mark(marks);
    let refusal = answered(&store::offer(pool, table, sender.user, sender.till, prints, marks));
    let expected = refusals::answered(&offer_refusal(c, sender, marks.len()));
    counts::answered(counts, counts::OFFERS, refusal, expected);
    judge_marks(refusal, marks, counts);
    turn(marks);
}

// A length above all that are taken stands for those above it.
fn short(n: usize) -> u32 {
    n.min(65537) as u32
}

// Of what is packed, the first n bytes. One that has no room shows as a wrong answer.
fn send_packed(
    sender: Sender,
    bytes: usize,
    prints: &[u8],
    marks: &[u8],
    packed: &[u8],
    n: usize,
    pool: &mut [u8],
    table: &mut [u32],
) -> BackedUp {
    if packed.len() < n {
        return BackedUp {
            refusal: 0,
            version: 0,
        };
    }
    store::backup_sent(
        pool,
        table,
        sender.user,
        sender.till,
        short(bytes),
        prints,
        marks,
        &packed[..n],
    )
    .into()
}

// The second message: those of the image's segments that are marked.
fn send(
    sender: Sender,
    bytes: usize,
    image: &[u8],
    width: usize,
    prints: &[u8],
    marks: &[u8],
    pool: &mut [u8],
    table: &mut [u32],
) -> BackedUp
    requires { 0 < width }
{
    let mut packed = [0u8; 8192];
    let n = pack(image, width, marks, &mut packed);
    send_packed(sender, bytes, prints, marks, &packed, n, pool, table)
}

// Both, with room for fingerprints and marks.
fn exchange(
    c: Capacities,
    sender: Sender,
    bytes: usize,
    image: &[u8],
    prints: &mut [u8],
    marks: &mut [u8],
    pool: &mut [u8],
    table: &mut [u32],
    counts: &mut [u64],
) -> BackedUp {
    let width = segment_bytes(c);
    print_all(image, width, prints);
    offer(c, sender, pool, table, prints, marks, counts);
    send(sender, bytes, image, width, prints, marks, pool, table)
}

// The image has n whole segments; of the room they take their part.
fn with_segments(
    c: Capacities,
    sender: Sender,
    bytes: usize,
    image: &[u8],
    n: usize,
    prints: &mut [u8],
    marks: &mut [u8],
    pool: &mut [u8],
    table: &mut [u32],
    counts: &mut [u64],
) -> BackedUp
    requires { (n ≤ 16) × (length prints.old ≡ 320) × (length marks.old ≡ 16) }
{
    let end = 20 * n;
    exchange(
        c,
        sender,
        bytes,
        image,
        &mut prints[..end],
        &mut marks[..n],
        pool,
        table,
        counts,
    )
}

fn with_room(
    c: Capacities,
    sender: Sender,
    bytes: usize,
    image: &[u8],
    n: usize,
    pool: &mut [u8],
    table: &mut [u32],
    counts: &mut [u64],
) -> BackedUp
    requires { n ≤ 16 }
{
    let mut prints = [0u8; 320];
    let mut marks = [0u8; 16];
    with_segments(
        c,
        sender,
        bytes,
        image,
        n,
        &mut prints,
        &mut marks,
        pool,
        table,
        counts,
    )
}

fn bytes_in(n: usize, width: usize) -> usize
    requires { (n ≤ 16) × (width ≤ 8192) }
{
    n * width
}

// The image's bytes are followed by zeros, up to a whole segment.
fn filled_up(
    c: Capacities,
    sender: Sender,
    bytes: usize,
    whole: &[u8],
    pool: &mut [u8],
    table: &mut [u32],
    counts: &mut [u64],
) -> BackedUp {
    let width = segment_bytes(c);
    let n = segments_for(width, bytes);
    let end = bytes_in(n, width);
    if whole.len() < end {
        return BackedUp {
            refusal: 0,
            version: 0,
        };
    }
    with_room(c, sender, bytes, &whole[..end], n, pool, table, counts)
}

fn both(
    c: Capacities,
    sender: Sender,
    image: &[u8],
    pool: &mut [u8],
    table: &mut [u32],
    counts: &mut [u64],
) -> BackedUp {
    let mut whole = [0u8; 8192];
    put(image, &mut whole, 0);
    filled_up(c, sender, image.len(), &whole, pool, table, counts)
}

// A refusal leaves the buffers.
fn both_judged(
    c: Capacities,
    sender: Sender,
    image: &[u8],
    pool: &mut [u8],
    table: &mut [u32],
    counts: &mut [u64],
) -> BackedUp {
    let mut bytes = [0u8; trial_compare::POOL];
    let mut entries = [0u32; trial_compare::TABLE];
    trial_compare::copy(pool, table, &mut bytes, &mut entries);
    let a = both(c, sender, image, pool, table, counts);
    trial_judge::buffers(a.refusal, &bytes, &entries, pool, table, counts);
    a
}

// Judged as the backup of the whole image.
pub fn back_up(
    c: Capacities,
    user: u32,
    till: u32,
    image: &[u8],
    pool: &mut [u8],
    table: &mut [u32],
    images: &mut [u8],
    notes: &mut [u32],
    counts: &mut [u64],
) {
    let sender = Sender {
        user,
        till,
        may: trial_keeper::refusal_of(c, notes, user, till, trial_keeper::BACK_UP),
    };
    let a = both_judged(c, sender, image, pool, table, counts);
    trial_judge::backed_up(a, c, user, till, image, images, notes, counts);
}
