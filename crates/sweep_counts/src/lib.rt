// Release and claim: each direct pointer of a list lowers its position's count by 1, or adds 1 to it.
#![tactic(auto)]

ghost use Rattle.std.specs.Prelude.{◌≡◌, map, ℕ, pred, ◌+◌, ◌*◌, ◌^◌, ◌<◌, ◌≤◌, length, get_or, set};
ghost use Rattle.model.specs.Measures.{record_words};
ghost use Rattle.model.specs.Table.{word_to_pointer, records_in};
ghost use Rattle.model.specs.Records.{count_of};
ghost use Rattle.model.specs.Place.{one_more};
ghost use Rattle.model.specs.Sweep.{one_less, change_at, change_all};
ghost use Rattle.storage.specs.Stored.{EncodesRecords, position_in};
ghost use Rattle.storage.specs.Fits.{WithinRecords, NamesHeld};

use numbers::{Pointer, RecordNumber};

// Where the count of a position stands, of n in a record.
fn count_at(number: RecordNumber, position: u32, n: usize) -> usize
    requires { (n ≤ 16) × (position < n) }
    ensures { result ≡ number.0 * record_words n + (3 + n + position) }
{
    number.word(n) + (3 + n + position as usize)
}

// One less at the count of a position, of n.
pub fn lower_at(words: &mut [u32], number: RecordNumber, position: u32, n: usize)
    requires { (n ≤ 16) × (number.0 * record_words n + record_words n ≤ length words.old) × (position < n) }
    ensures { let at = number.0 * record_words n + (3 + n + position) in words.new ≡ set words.old at (pred (get_or words.old at 0)) }
{
    let at = count_at(number, position, n);
    words[at] = words[at].saturating_sub(1);
}

// The same for the position that a pointer names, if it is direct.
pub fn lower(words: &mut [u32], pointer: Pointer, n: usize)
    requires n_bound { (n ≤ 16) × EncodesRecords n words.old (records_in n words.old) }
    requires within_records { WithinRecords n (length words.old) (word_to_pointer pointer.0) }
    ensures { EncodesRecords n words.new (change_at one_less (records_in n words.old) (word_to_pointer pointer.0)) }
{
    if pointer.is_direct() {
        lower_at(words, pointer.record(), pointer.position(), n);
    }
}

// The counts for all pointers of a list.
pub fn release(words: &mut [u32], pointers: &[u32], n: usize)
    requires n_bound { (n ≤ 16) × EncodesRecords n words.old (records_in n words.old) }
    requires by_index { (i : ℕ) → i < length pointers.now → WithinRecords n (length words.old) (word_to_pointer (get_or pointers.now i 0)) }
    ensures { EncodesRecords n words.new (change_all one_less (records_in n words.old) (map word_to_pointer pointers.now)) }
{
    for word in pointers {
        lower(words, Pointer(*word), n);
    }
}

// One more at the count of a position, of n.
// Kept: the new form is no plainer: a shared function that takes the change would need `F.pre` and `F.post` clauses for a body of two lines.
fn raise_at(words: &mut [u32], number: RecordNumber, position: u32, n: usize)
    requires { (n ≤ 16) × (number.0 * record_words n + record_words n ≤ length words.old) × (position < n) × (get_or words.old (number.0 * record_words n + (3 + n + position)) 0 + 1 < 2 ^ 32) }
    ensures { let at = number.0 * record_words n + (3 + n + position) in words.new ≡ set words.old at (get_or words.old at 0 + 1) }
{
    let at = count_at(number, position, n);
    words[at] += 1;
}

// The same for the position that a pointer names, if it is direct: it is held.
fn raise(words: &mut [u32], pointer: Pointer, n: usize)
    requires n_bound { (n ≤ 16) × EncodesRecords n words.old (records_in n words.old) }
    requires within_records { WithinRecords n (length words.old) (word_to_pointer pointer.0) × NamesHeld (records_in n words.old) (word_to_pointer pointer.0) }
    requires by_index { (k i : ℕ) → count_of (position_in (records_in n words.old) k i) + 1 < 2 ^ 32 }
    ensures { EncodesRecords n words.new (change_at one_more (records_in n words.old) (word_to_pointer pointer.0)) }
{
    if pointer.is_direct() {
        raise_at(words, pointer.record(), pointer.position(), n);
    }
}

// The counts for all pointers of a list.
pub fn claim(words: &mut [u32], pointers: &[u32], n: usize)
    requires n_bound { (n ≤ 16) × EncodesRecords n words.old (records_in n words.old) }
    requires by_index { (i : ℕ) → i < length pointers.now → WithinRecords n (length words.old) (word_to_pointer (get_or pointers.now i 0)) × NamesHeld (records_in n words.old) (word_to_pointer (get_or pointers.now i 0)) }
    requires by_index_2 { (k i : ℕ) → count_of (position_in (records_in n words.old) k i) + length pointers.now < 2 ^ 32 }
    ensures { EncodesRecords n words.new (change_all one_more (records_in n words.old) (map word_to_pointer pointers.now)) }
{
    for word in pointers {
        raise(words, Pointer(*word), n);
    }
}
