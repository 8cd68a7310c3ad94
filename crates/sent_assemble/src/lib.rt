// The image of a second message, put together segment by segment.
#![tactic(auto)]

ghost use Rattle.std.specs.Prelude.{◌≡◌, ℕ, ◌+◌, ◌*◌, ◌≤◌, ◌<◌, leb, length, get_or, take, drop};
ghost use Rattle.lists.specs.Lists.{all_zero, first_from};
ghost use Rattle.lists.specs.Search.{as_option};
ghost use Rattle.model.specs.Table.{records_in, storage_in};
ghost use Rattle.numbers.specs.Measures.{measures_of};
ghost use Rattle.storage.specs.Stored.{Stored};
ghost use Rattle.refusals.specs.Refusals.{refusal_of};
ghost use Rattle.sha1_definition.specs.Sha1.{sha1, digest};
ghost use Rattle.sent.specs.Sent.{segment_bytes, zero_segment, assembled};
ghost use Rattle.sent.specs.Found.{is_printed, PrintsOf, RecordsFor, Brings, ended, source, Message};

use numbers::{Measures, RecordNumber};
use refusals::Refusal;
use sha1_definition::Digest;

// Whether a segment, of which the image has `left` bytes, is zero after them.
fn ends_zero(segment: &[u8], left: usize) -> bool
    ensures { result ≡ all_zero (drop left segment.now) }
{
    if segment.len() <= left {
        return true;
    }
    blocks::all_zero(&segment[left..])
}

// One segment is brought to its place: by its mark the next of those sent, number s, or one that is had.
fn bring(
    pool: &[u8],
    words: &[u32],
    mark: u8,
    prints: &[u8],
    segments: &[u8],
    s: usize,
    fingerprint: &[u8],
    number: RecordNumber,
    zero: Digest,
    out: &mut [u8],
    m: Measures,
) -> Result<(), Refusal>
    requires stored { Stored (measures_of m) pool.now words.now × PrintsOf (segment_bytes (measures_of m)) segments.now prints.now × (mark ≤ 1) × ((s + mark) * segment_bytes (measures_of m) ≤ length segments.now) × ((s + mark) * 20 ≤ length prints.now) × (zero ≡ digest (zero_segment (measures_of m))) × (length out.old ≡ segment_bytes (measures_of m)) }
    requires number_value { as_option (length (records_in m.blocks words.now)) number.0 ≡ first_from (is_printed sha1 (measures_of m) (storage_in (measures_of m) pool.now words.now) fingerprint.now) 0 (records_in m.blocks words.now) }
    ensures { Brings (source (measures_of m) (storage_in (measures_of m) pool.now words.now) mark s segments.now fingerprint.now) (refusal_of result) out.new }
{
    if mark == 1 {
        let width = m.segment_bytes();
        return sent_bring::bring_sent(prints, segments, s, fingerprint, out, width);
    }
    sent_bring::bring_had(
        pool,
        words,
        prints,
        segments,
        s,
        fingerprint,
        number,
        zero,
        out,
        m,
    )
}

// The same, of a segment of which the image has `left` bytes: 19 too where another byte than zero follows them.
fn take_segment(
    pool: &[u8],
    words: &[u32],
    mark: u8,
    prints: &[u8],
    segments: &[u8],
    s: usize,
    fingerprint: &[u8],
    number: RecordNumber,
    zero: Digest,
    left: usize,
    out: &mut [u8],
    m: Measures,
) -> Result<(), Refusal>
    requires stored { Stored (measures_of m) pool.now words.now × PrintsOf (segment_bytes (measures_of m)) segments.now prints.now × (mark ≤ 1) × ((s + mark) * segment_bytes (measures_of m) ≤ length segments.now) × ((s + mark) * 20 ≤ length prints.now) × (zero ≡ digest (zero_segment (measures_of m))) × (length out.old ≡ segment_bytes (measures_of m)) }
    requires number_value { as_option (length (records_in m.blocks words.now)) number.0 ≡ first_from (is_printed sha1 (measures_of m) (storage_in (measures_of m) pool.now words.now) fingerprint.now) 0 (records_in m.blocks words.now) }
    ensures { Brings (ended left (source (measures_of m) (storage_in (measures_of m) pool.now words.now) mark s segments.now fingerprint.now)) (refusal_of result) out.new }
{
    bring(
        pool,
        words,
        mark,
        prints,
        segments,
        s,
        fingerprint,
        number,
        zero,
        out,
        m,
    )?;
    if !ends_zero(out, left) {
        return Err(Refusal::OtherSegment);
    }
    Ok(())
}

// All segments, where the fingerprints of those sent and the records' numbers are known.
fn gather(
    pool: &[u8],
    words: &[u32],
    bytes: usize,
    fingerprints: &[u8],
    marks: &[u8],
    segments: &[u8],
    prints: &[u8],
    numbers: &[u32],
    out: &mut [u8],
    m: Measures,
) -> Result<(), Refusal>
    requires { Stored (measures_of m) pool.now words.now × Message (measures_of m) bytes fingerprints.now marks.now segments.now × PrintsOf (segment_bytes (measures_of m)) segments.now prints.now × (5120 ≤ length prints.now) × (length numbers.now ≡ length marks.now) × RecordsFor (measures_of m) (storage_in (measures_of m) pool.now words.now) fingerprints.now numbers.now × (73728 ≤ length out.old) }
    ensures { Brings (assembled sha1 (measures_of m) (storage_in (measures_of m) pool.now words.now) bytes fingerprints.now marks.now segments.now) (refusal_of result) (take bytes out.new) }
{
    let width = m.segment_bytes();
    let zero = sent_prints::zero_digest(m);
    let mut s = 0;
    for (j, &mark) in marks.iter().enumerate() {
        let at = j * width;
        let end = at + width;
        let from = j * 20;
        let to = from + 20;
        take_segment(
            pool,
            words,
            mark,
            prints,
            segments,
            s,
            &fingerprints[from..to],
            RecordNumber(numbers[j]),
            zero,
            bytes - at,
            &mut out[at..end],
            m,
        )?;
        s += usize::from(mark);
    }
    Ok(())
}

// The image goes to the front of the output, with room for the fingerprints of what was sent and for the records' numbers.
fn assemble_with(
    pool: &[u8],
    words: &[u32],
    bytes: usize,
    fingerprints: &[u8],
    marks: &[u8],
    segments: &[u8],
    prints: &mut [u8],
    numbers: &mut [u32],
    out: &mut [u8],
    m: Measures,
) -> Result<(), Refusal>
    requires { Stored (measures_of m) pool.now words.now × Message (measures_of m) bytes fingerprints.now marks.now segments.now × (length prints.old ≡ 5120) × (length numbers.old ≡ 256) × (73728 ≤ length out.old) }
    ensures { Brings (assembled sha1 (measures_of m) (storage_in (measures_of m) pool.now words.now) bytes fingerprints.now marks.now segments.now) (refusal_of result) (take bytes out.new) }
{
    let n = marks.len();
    sent_bring::print_segments(segments, m.segment_bytes(), prints);
    sent_find::find_records(pool, words, fingerprints, &mut numbers[..n], m);
    gather(
        pool,
        words,
        bytes,
        fingerprints,
        marks,
        segments,
        prints,
        &numbers[..n],
        out,
        m,
    )
}

// An image has at most 256 segments.
pub fn assemble(
    pool: &[u8],
    words: &[u32],
    bytes: usize,
    fingerprints: &[u8],
    marks: &[u8],
    segments: &[u8],
    out: &mut [u8],
    m: Measures,
) -> Result<(), Refusal>
    requires { Stored (measures_of m) pool.now words.now × Message (measures_of m) bytes fingerprints.now marks.now segments.now × (73728 ≤ length out.old) }
    ensures { Brings (assembled sha1 (measures_of m) (storage_in (measures_of m) pool.now words.now) bytes fingerprints.now marks.now segments.now) (refusal_of result) (take bytes out.new) }
{
    let mut prints = [0u8; 5120];
    let mut numbers = [0u32; 256];
    assemble_with(
        pool,
        words,
        bytes,
        fingerprints,
        marks,
        segments,
        &mut prints,
        &mut numbers,
        out,
        m,
    )
}
