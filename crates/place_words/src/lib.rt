// The words of a record: counts raised and lowered, a new row written; and pointer words. Written along the bits of a mask.
#![tactic(auto)]

ghost use Rattle.std.specs.Prelude.{◌≡◌, List, map, ℕ, ◌+◌, ◌-◌, ◌*◌, ◌≤◌, ◌<◌, length, get_or, set};
ghost use Rattle.lists.specs.Walk.{pick, raised, lowered, bits, numbered, walk, next_same};
ghost use Rattle.model.specs.Measures.{record_words};
ghost use Rattle.model.specs.Image.{with_blanks};
ghost use Rattle.model.specs.State.{Block, Segment};
ghost use Rattle.model.specs.Place.{one_more, new_positions, pointers_to};
ghost use Rattle.model.specs.Sweep.{one_less};
ghost use Rattle.model.specs.Table.{record_to_words, pointer_word};
ghost use Rattle.place_words.specs.Marks.{stored_mask, blank_mask};
ghost use Rattle.place_words.specs.Words.{pointer_if};

use numbers::{Cell, Pointer, RecordNumber};

fn picked(bit: u32, value: u32) -> u32
    requires { bit < 2 }
    ensures { result ≡ pick bit value }
{
    if bit == 1 { value } else { 0 }
}

// The pointer's word for a block that is stored, else a blank or a null pointer's.
fn pointer_if(stored: u32, blank: u32, word: u32) -> u32
    requires { (stored < 2) × (blank < 2) }
    ensures { result ≡ pointer_if stored blank word }
{
    if stored == 1 {
        word
    } else if blank == 1 {
        Pointer::blank().0
    } else {
        Pointer::null().0
    }
}

// Each word becomes what the step makes of its bit of the mask and of the word.
fn step_each<F: Fn(u32, u32) -> u32>(words: &mut [u32], mask: u32, step: F)
    requires { (i b : ℕ) → i < length words.old → b < 2 → F.pre step b (get_or words.old i 0) }
    ensures { (out : ℕ → ℕ → ℕ) → ((b x y : ℕ) → F.post step b x y → y ≡ out b x) → words.new ≡ walk (λ b a x. out b x) next_same mask 0 words.old }
{
    let mut m = mask;
    for word in words.iter_mut() {
        *word = step(m % 2, *word);
        m /= 2;
    }
}

// One more where a bit is set.
fn raise(counts: &mut [u32], mask: u32)
    requires { (i : ℕ) → i < length counts.old → get_or counts.old i 0 < 4294967295 }
    ensures { counts.new ≡ raised mask counts.old }
{
    step_each(counts, mask, |bit, count| count + bit);
}

// One less where a bit is set.
fn lower(counts: &mut [u32], mask: u32)
    ensures { counts.new ≡ lowered mask counts.old }
{
    step_each(counts, mask, |bit, count| count.saturating_sub(bit));
}

// The bits of the mask.
fn put_bits(counts: &mut [u32], mask: u32)
    ensures { counts.new ≡ bits mask counts.old }
{
    step_each(counts, mask, |bit, _| bit);
}

// Consecutive numbers where a bit is set, 0 elsewhere.
fn number(cells: &mut [u32], mask: u32, start: Cell)
    requires { (length cells.old ≤ 16) × (start.0 ≤ 65536) }
    ensures { cells.new ≡ numbered mask start.0 cells.old }
{
    let mut m = mask;
    let mut at = start.0;
    for cell in cells.iter_mut() {
        let bit = m % 2;
        *cell = picked(bit, at);
        at += bit;
        m /= 2;
    }
}

// A segment's pointers, by the masks of its blocks that are stored and of those that are blank: to a record's positions, blank ones and null ones.
pub fn put_places(words: &mut [u32], mask: u32, blank: u32, k: RecordNumber)
    requires { (length words.old ≤ 16) × (k.0 ≤ 4096) }
    ensures { (seg : List Block) → length seg ≡ length words.old → mask ≡ stored_mask seg → blank ≡ blank_mask seg → words.new ≡ map pointer_word (pointers_to with_blanks k.0 0 seg) }
{
    let first = Pointer::direct(k, 0);
    let mut m = mask;
    let mut b = blank;
    for (i, word) in words.iter_mut().enumerate() {
        *word = pointer_if(m % 2, b % 2, first.0 + i as u32);
        m /= 2;
        b /= 2;
    }
}

// One pointer more to each held position of a record's n.
pub fn raise_row(row: &mut [u32], n: usize)
    requires { (n ≤ 16) × (length row.old ≡ record_words n) × ((i : ℕ) → i < n → get_or row.old (3 + n + i) 0 < 4294967295) }
    ensures { (seg : Segment) → length seg ≡ n → row.old ≡ record_to_words seg → row.new ≡ record_to_words (map one_more seg) }
{
    let mask = row[0];
    let counts = 3 + n;
    raise(&mut row[counts..], mask);
}

// One pointer less to each held position of a record's n.
pub fn lower_row(row: &mut [u32], n: usize)
    requires { (n ≤ 16) × (length row.old ≡ record_words n) }
    ensures { (seg : Segment) → length seg ≡ n → row.old ≡ record_to_words seg → row.new ≡ record_to_words (map one_less seg) }
{
    let mask = row[0];
    let counts = 3 + n;
    lower(&mut row[counts..], mask);
}

// The masks of a new record.
fn put_masks(row: &mut [u32], mask: u32, blank: u32)
    requires { 3 ≤ length row.old }
    ensures { row.new ≡ set (set (set row.old 0 mask) 1 0) 2 blank }
{
    row[0] = mask;
    row[1] = 0;
    row[2] = blank;
}

// A new record of n positions, whose held ones take consecutive cells and have the count 1.
pub fn new_row(row: &mut [u32], mask: u32, blank: u32, start: Cell, n: usize)
    requires { (n ≤ 16) × (length row.old ≡ record_words n) × (start.0 ≤ 65536) }
    ensures { (seg : List Block) → length seg ≡ n → mask ≡ stored_mask seg → blank ≡ blank_mask seg → row.new ≡ record_to_words (new_positions with_blanks start.0 seg) }
{
    let counts = 3 + n;
    put_masks(row, mask, blank);
    number(&mut row[3..counts], mask, start);
    put_bits(&mut row[counts..], mask);
}
