// A segment of an image brought to its place: one that was sent, or one that is had.
#![tactic(auto)]

ghost use Rattle.std.specs.Prelude.{◌≡◌, cond, MatchOption, List, [], ◌++◌, ℕ, ◌+◌, ◌*◌, ◌/◌, ◌%◌, ◌≤◌, ◌<◌, length, get_or, take, drop};
ghost use Rattle.lists.specs.Lists.{first_from, same_numbers};
ghost use Rattle.lists.specs.Rows.{parts, rows};
ghost use Rattle.lists.specs.Search.{as_option};
ghost use Rattle.std.proofs.Math.Option.{none, some};
ghost use Rattle.model.specs.Measures.{record_words};
ghost use Rattle.model.specs.State.{Position, Segment, Storage, refused, done};
ghost use Rattle.model.specs.Records.{is_held, is_blank_position, cell_of};
ghost use Rattle.model.specs.Table.{cells_in, record_to_words, records_in, storage_in};
ghost use Rattle.numbers.specs.Measures.{measures_of};
ghost use Rattle.storage.specs.Stored.{Stored};
ghost use Rattle.refusals.specs.Refusals.{refusal_of};
ghost use Rattle.sha1_definition.specs.Sha1.{sha1, digest};
ghost use Rattle.sent.specs.Sent.{segment_bytes, content_of, content_in, zero_segment, had};
ghost use Rattle.sent.specs.Found.{is_printed, PrintsOf, Brings, or_twenty};

use numbers::{Block, Cell, Measures, RecordNumber};
use refusals::Refusal;
use sha1_definition::Digest;

// The fingerprints of the segments that were sent.
pub fn print_segments(segments: &[u8], width: usize, prints: &mut [u8])
    requires { (0 < width) × (length segments.now / width * 20 ≤ length prints.old) }
    ensures { (length prints.new ≡ length prints.old) × PrintsOf width segments.now prints.new }
{
    for i in 0..numbers::parts(segments.len(), width) {
        let at = i * width;
        let end = at + width;
        let print = sha1_message::digest_bytes(sha1_message::sha1(&segments[at..end]));
        blocks::copy_part(&print, 0, prints, i * 20, 20);
    }
}

// The lowest of the first n prints that is a fingerprint.
fn find_sent(prints: &[u8], n: usize, fingerprint: &[u8]) -> Option<usize>
    requires { n * 20 ≤ length prints.now }
    ensures { let found = first_from (λ p. same_numbers p fingerprint.now) 0 (parts 20 n prints.now) in MatchOption result (found ≡ none) (λ i. (found ≡ some i) × (i < n)) }
{
    for k in 0..n {
        let at = k * 20;
        let end = at + 20;
        if blocks::same(&prints[at..end], fingerprint) {
            return Some(k);
        }
    }
    None
}

// A position's content goes to a block's place. The bits tell a held one and a blank one.
fn put_position(
    pool: &[u8],
    held: u32,
    blank: u32,
    cell: Cell,
    out: &mut [u8],
    block: Block,
    bytes: usize,
)
    requires { (held < 2) × (blank < 2) × (cell.0 * bytes + bytes ≤ length pool.now) × (64 ≤ bytes) × (bytes ≤ 512) × (block.0 * bytes + bytes ≤ length out.old) }
    ensures { (s : Storage) (p : Position) → s.cells ≡ cells_in bytes pool.now → held ≡ cond (is_held p) 1 0 → blank ≡ cond (is_blank_position p) 1 0 → cell.0 ≡ cell_of p → out.new ≡ take (block.0 * bytes) out.old ++ (content_of bytes s p ++ drop (block.0 * bytes + bytes) out.old) }
{
    if held == 1 {
        blocks::copy_block(pool, cell, out, block, bytes, bytes);
        return;
    }
    if blank == 1 {
        blocks::fill_block(out, block, bytes, 255, bytes);
        return;
    }
    blocks::fill_block(out, block, bytes, 0, bytes);
}

// A record's content.
fn put_content(pool: &[u8], row: &[u32], out: &mut [u8], bytes: usize, n: usize)
    requires { (length row.now ≡ record_words n) × ((i : ℕ) → i < n → get_or row.now (3 + i) 0 * bytes + bytes ≤ length pool.now) × (64 ≤ bytes) × (bytes ≤ 512) × (n ≤ 16) × (length out.old ≡ n * bytes) }
    ensures { (s : Storage) (seg : Segment) → s.cells ≡ cells_in bytes pool.now → length seg ≡ n → row.now ≡ record_to_words seg → out.new ≡ rows (content_of bytes s) seg }
{
    let mut held = row[0];
    let mut blank = row[2];
    for i in 0..n {
        let cell = row[3 + i];
        put_position(
            pool,
            held % 2,
            blank % 2,
            Cell(cell),
            out,
            Block(i as u32),
            bytes,
        );
        held /= 2;
        blank /= 2;
    }
}

// The content of a record that is there, by its number.
fn put_record(pool: &[u8], words: &[u32], number: RecordNumber, out: &mut [u8], m: Measures)
    requires { Stored (measures_of m) pool.now words.now × (number.0 < length (records_in m.blocks words.now)) × (length out.old ≡ segment_bytes (measures_of m)) }
    ensures { let storage = storage_in (measures_of m) pool.now words.now in out.new ≡ content_in (measures_of m) storage (get_or storage.records number.0 []) }
{
    let at = number.word(m.blocks);
    let end = at + numbers::row_words(m.blocks);
    put_content(pool, &words[at..end], out, m.bytes, m.blocks);
}

// The next of those sent, number s, if it has the fingerprint.
pub fn bring_sent(
    prints: &[u8],
    segments: &[u8],
    s: usize,
    fingerprint: &[u8],
    out: &mut [u8],
    width: usize,
) -> Result<(), Refusal>
    requires { PrintsOf width segments.now prints.now × (s * width + width ≤ length segments.now) × (s * 20 + 20 ≤ length prints.now) × (length out.old ≡ width) }
    ensures { let seg = take width (drop (s * width) segments.now) in Brings (cond (same_numbers (sha1 seg) fingerprint.now) (done seg) (refused 19)) (refusal_of result) out.new }
{
    let from = s * 20;
    let to = from + 20;
    if !blocks::same(&prints[from..to], fingerprint) {
        return Err(Refusal::OtherSegment);
    }
    blocks::copy_part(segments, s * width, out, 0, width);
    Ok(())
}

// One not sent: zeros, the lowest of the s sent before it, or the record of the number that was found for its fingerprint.
pub fn bring_had(
    pool: &[u8],
    words: &[u32],
    prints: &[u8],
    segments: &[u8],
    s: usize,
    fingerprint: &[u8],
    number: RecordNumber,
    zero: Digest,
    out: &mut [u8],
    m: Measures,
) -> Result<(), Refusal>
    requires stored { Stored (measures_of m) pool.now words.now × PrintsOf (segment_bytes (measures_of m)) segments.now prints.now × (s * segment_bytes (measures_of m) ≤ length segments.now) × (s * 20 ≤ length prints.now) × (zero ≡ digest (zero_segment (measures_of m))) × (length out.old ≡ segment_bytes (measures_of m)) }
    requires number_value { as_option (length (records_in m.blocks words.now)) number.0 ≡ first_from (is_printed sha1 (measures_of m) (storage_in (measures_of m) pool.now words.now) fingerprint.now) 0 (records_in m.blocks words.now) }
    ensures { Brings (or_twenty (had sha1 (measures_of m) (storage_in (measures_of m) pool.now words.now) (parts (segment_bytes (measures_of m)) s segments.now) fingerprint.now)) (refusal_of result) out.new }
{
    let print = sha1_message::digest_bytes(zero);
    if blocks::same(&print, fingerprint) {
        out.fill(0);
        return Ok(());
    }
    let n = number.0 as usize;
    let count = numbers::rows(words.len(), m.blocks);
    if let Some(i) = find_sent(prints, s, fingerprint) {
        let width = m.segment_bytes();
        blocks::copy_part(segments, i * width, out, 0, width);
        return Ok(());
    }
    if count <= n {
        return Err(Refusal::NoSegment);
    }
    put_record(pool, words, number, out, m);
    Ok(())
}
