// For each fingerprint the lowest record that can match and has it. Each record is hashed once, and what it finds overwrites what a higher one found.
#![tactic(auto)]

ghost use Rattle.std.specs.Prelude.{◌≡◌, cond, ℕ, ◌+◌, ◌*◌, ◌%◌, ◌≤◌, ◌<◌, length, get_or};
ghost use Rattle.lists.specs.Lists.{same_numbers};
ghost use Rattle.model.specs.Measures.{record_words};
ghost use Rattle.model.specs.State.{Segment, Storage};
ghost use Rattle.model.specs.Table.{cells_in, record_to_words, records_in, storage_in};
ghost use Rattle.numbers.specs.Measures.{measures_of};
ghost use Rattle.laws.specs.Ranges.{Measured};
ghost use Rattle.storage.specs.Stored.{Stored};
ghost use Rattle.sha1_definition.specs.Sha1.{sha1, digest_bytes};
ghost use Rattle.sent.specs.Found.{print_at, is_printed, RecordsFor};

use numbers::{Measures, RecordNumber};
use sha1_definition::Digest;

// Whether two fingerprints are the same. The first byte settles most pairs.
fn prints_same(print: &[u8], fingerprint: &[u8]) -> bool
    requires { (length print.now ≡ 20) × (length fingerprint.now ≡ 20) }
    ensures { result ≡ same_numbers print.now fingerprint.now }
{
    print[0] == fingerprint[0] && blocks::same(print, fingerprint)
}

// Each fingerprint that is the digest gets the number.
fn put_number(d: Digest, number: RecordNumber, fingerprints: &[u8], numbers: &mut [u32])
    requires { length fingerprints.now ≡ length numbers.old * 20 }
    ensures { (length numbers.new ≡ length numbers.old) × ((j : ℕ) → j < length numbers.old → get_or numbers.new j 0 ≡ cond (same_numbers (digest_bytes d) (print_at fingerprints.now j)) number.0 (get_or numbers.old j 0)) }
{
    let print = sha1_message::digest_bytes(d);
    for j in 0..numbers.len() {
        let at = j * 20;
        let end = at + 20;
        if prints_same(&print, &fingerprints[at..end]) {
            numbers[j] = number.0;
        }
    }
}

// Each fingerprint that a record has gets its number, if it can match.
fn find_record(
    pool: &[u8],
    row: &[u32],
    number: RecordNumber,
    fingerprints: &[u8],
    numbers: &mut [u32],
    m: Measures,
)
    requires { Measured (measures_of m) × (length row.now ≡ record_words m.blocks) × ((i : ℕ) → i < m.blocks → get_or row.now (3 + i) 0 * m.bytes + m.bytes ≤ length pool.now) × (length fingerprints.now ≡ length numbers.old * 20) }
    ensures { (length numbers.new ≡ length numbers.old) × ((s : Storage) (seg : Segment) → s.cells ≡ cells_in m.bytes pool.now → length seg ≡ m.blocks → row.now ≡ record_to_words seg → (j : ℕ) → j < length numbers.old → get_or numbers.new j 0 ≡ cond (is_printed sha1 (measures_of m) s (print_at fingerprints.now j) seg) number.0 (get_or numbers.old j 0)) }
{
    if !sent_prints::can_match(pool, row, m.bytes, m.blocks) {
        return;
    }
    let d = sent_prints::record_digest(pool, row, m.bytes, m.blocks);
    put_number(d, number, fingerprints, numbers);
}

// The records' numbers, from the highest record down. Before, no place has a record's number.
fn find_down(pool: &[u8], words: &[u32], fingerprints: &[u8], numbers: &mut [u32], m: Measures)
    requires { Stored (measures_of m) pool.now words.now × (length fingerprints.now ≡ length numbers.old * 20) × ((j : ℕ) → j < length numbers.old → 4096 ≤ get_or numbers.old j 0) }
    ensures { (length numbers.new ≡ length numbers.old) × RecordsFor (measures_of m) (storage_in (measures_of m) pool.now words.now) fingerprints.now numbers.new }
{
    let width = numbers::row_words(m.blocks);
    for k in (0..numbers::rows(words.len(), m.blocks)).rev() {
        let number = RecordNumber(k as u32);
        let at = number.word(m.blocks);
        let end = at + width;
        find_record(pool, &words[at..end], number, fingerprints, numbers, m);
    }
}

// The records' numbers, or the most that can be where there is none.
pub fn find_records(
    pool: &[u8],
    words: &[u32],
    fingerprints: &[u8],
    numbers: &mut [u32],
    m: Measures,
)
    requires { Stored (measures_of m) pool.now words.now × (length fingerprints.now ≡ length numbers.old * 20) }
    ensures { (length numbers.new ≡ length numbers.old) × RecordsFor (measures_of m) (storage_in (measures_of m) pool.now words.now) fingerprints.now numbers.new }
{
    numbers.fill(RecordNumber::MOST);
    find_down(pool, words, fingerprints, numbers, m);
}
