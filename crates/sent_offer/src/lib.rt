// The first message, on a sound store: a mark for each fingerprint, 1 if the box has its segment.
#![tactic(auto)]

ghost use Rattle.std.specs.Prelude.{◌≡◌, true, cond, [], map, ℕ, ◌*◌, ◌≤◌, ◌<◌, ltb, length, get_or};
ghost use Rattle.lists.specs.Lists.{is_some, same_numbers};
ghost use Rattle.lists.specs.Rows.{chunks};
ghost use Rattle.model.specs.Table.{storage_in};
ghost use Rattle.numbers.specs.Measures.{measures_of};
ghost use Rattle.laws.specs.Stores.{Sound};
ghost use Rattle.storage.specs.Stored.{Stored};
ghost use Rattle.refusals.specs.Refusals.{refusal_of};
ghost use Rattle.sha1_definition.specs.Sha1.{sha1, digest_bytes};
ghost use Rattle.sent.specs.Sent.{had, offer_of};
ghost use Rattle.sent.specs.Found.{print_at};
ghost use Rattle.sent_offer.specs.Offer.{offered};

use numbers::Measures;
use refusals::Refusal;
use sha1_definition::Digest;

// 1 for the fingerprint of zeros, and where a record was found, of so many.
fn mark_of(zero: &[u8], fingerprint: &[u8], number: u32, count: usize) -> u8
    ensures { result ≡ cond (cond (same_numbers zero.now fingerprint.now) true (ltb number count)) 1 0 }
{
    u8::from(blocks::same(zero, fingerprint) || (number as usize) < count)
}

// The marks, by the numbers of the records that were found.
fn write_marks(zero: Digest, fingerprints: &[u8], numbers: &[u32], count: usize, marks: &mut [u8])
    requires { (length fingerprints.now ≡ 20 * length marks.old) × (length numbers.now ≡ length marks.old) × (length marks.old ≤ 256) }
    ensures { (length marks.new ≡ length marks.old) × ((j : ℕ) → j < length marks.old → get_or marks.new j 0 ≡ cond (cond (same_numbers (digest_bytes zero) (print_at fingerprints.now j)) true (ltb (get_or numbers.now j 0) count)) 1 0) }
{
    let print = sha1_message::digest_bytes(zero);
    for j in 0..marks.len() {
        let at = j * 20;
        let end = at + 20;
        marks[j] = mark_of(&print, &fingerprints[at..end], numbers[j], count);
    }
}

// The marks, from the records' words, with room for their numbers.
fn mark_with(
    pool: &[u8],
    words: &[u32],
    fingerprints: &[u8],
    numbers: &mut [u32],
    marks: &mut [u8],
    m: Measures,
)
    requires { Stored (measures_of m) pool.now words.now × (length fingerprints.now ≡ 20 * length marks.old) × (length marks.old ≤ 256) × (length numbers.old ≡ 256) }
    ensures { marks.new ≡ map (λ f. cond (is_some (had sha1 (measures_of m) (storage_in (measures_of m) pool.now words.now) [] f)) 1 0) (chunks 20 fingerprints.now) }
{
    let n = marks.len();
    sent_find::find_records(pool, words, fingerprints, &mut numbers[..n], m);
    let zero = sent_prints::zero_digest(m);
    let count = numbers::rows(words.len(), m.blocks);
    write_marks(zero, fingerprints, &numbers[..n], count, marks);
}

// An image has at most 256 segments.
fn mark_all(pool: &[u8], words: &[u32], fingerprints: &[u8], marks: &mut [u8], m: Measures)
    requires { Stored (measures_of m) pool.now words.now × (length fingerprints.now ≡ 20 * length marks.old) × (length marks.old ≤ 256) }
    ensures { marks.new ≡ map (λ f. cond (is_some (had sha1 (measures_of m) (storage_in (measures_of m) pool.now words.now) [] f)) 1 0) (chunks 20 fingerprints.now) }
{
    let mut numbers = [0u32; 256];
    mark_with(pool, words, fingerprints, &mut numbers, marks, m);
}

pub fn offer_segments(
    pool: &[u8],
    table: &[u32],
    till: u32,
    fingerprints: &[u8],
    marks: &mut [u8],
) -> Result<(), Refusal>
    requires { Sound pool.now table.now }
    ensures { offered (refusal_of result) marks.new ≡ offer_of pool.now table.now till fingerprints.now marks.old }
{
    sent_accept::offer_refusal(table, till, fingerprints, marks)?;
    let m = layout::measures_in(table);
    let from = layout::records_at(table);
    mark_all(pool, &table[from..], fingerprints, marks, m);
    Ok(())
}
