// Whether the words of a slot, a record and a pointer are in order. Each check's contract says exactly when it is true.
#![tactic(auto)]

ghost use Rattle.std.specs.Prelude.{true, false, ◌≡◌, ℕ, ◌+◌, ◌*◌, ◌/◌, ◌%◌, ◌^◌, ◌≤◌, ◌<◌, length, get_or};
ghost use Rattle.lists.specs.Decides.{Decides};
ghost use Rattle.lists.specs.Lists.{all_zero};
ghost use Rattle.lists.specs.Rows.{chunks};
ghost use Rattle.lists.specs.Each.{Each};
ghost use Rattle.model.specs.Measures.{record_words};
ghost use Rattle.audit_words.specs.Words.{bit_of, SlotFrame, PositionForm, RecordForm};

// Whether all words are zero. No exit from the loop, so that the compiler takes many words at a time.
pub fn zeros(words: &[u32]) -> bool
    ensures { result ≡ all_zero words.now }
{
    let mut good = true;
    for &word in words {
        good &= word == 0;
    }
    good
}

// Whether a slot in use has a version's words, but for its pointers.
pub fn slot_frame(row: &[u32], blocks: usize, bytes: usize) -> bool
    requires { (blocks ≤ 1024) × (length row.now ≡ 3 + blocks) × (0 < bytes) × (bytes ≤ 512) }
    ensures { Decides result (SlotFrame bytes blocks row.now) }
{
    let length = row[1] as usize;
    if length < 1 || bytes * blocks < length {
        return false;
    }
    let end = 3 + numbers::parts_for(bytes, length);
    zeros(&row[end..])
}

// The first number that is no mask of n positions.
fn past_masks(n: usize) -> u32
    requires { n ≤ 16 }
    ensures { result ≡ 2 ^ n }
{
    1u32 << n
}

// A bit of a mask.
pub fn bit(m: u32, i: usize) -> u32
    requires { i < 32 }
    ensures { result ≡ bit_of m i }
{
    (m >> i) % 2
}

// Whether no position is in both masks.
fn apart(a: u32, b: u32) -> bool
    ensures { Decides result ((i : ℕ) → bit_of a i ≡ 1 → bit_of b i ≡ 0) }
{
    a & b == 0
}

// The words of a position that is not held; 0 if it is.
fn unheld(words: u32, held: u32) -> u32
    ensures { (held ≡ 0 → result ≡ words) × ((held ≡ 0 → ⊥) → result ≡ 0) }
{
    if held == 0 { words } else { 0 }
}

// Whether each position that is not held has zeros for its cell and its count. No exit from the loop, so that the compiler takes many positions at a time.
fn unheld_zero(row: &[u32], n: usize) -> bool
    requires { (length row.now ≡ record_words n) × (n ≤ 16) }
    ensures { Decides result ((i : ℕ) → i < n → bit_of (get_or row.now 0 0) i ≡ 0 → (get_or row.now (3 + i) 0 ≡ 0) × (get_or row.now (3 + n + i) 0 ≡ 0)) }
{
    let helds = row[0];
    let mut all: u32 = 0;
    for i in 0..n {
        all |= unheld(row[3 + i] | row[3 + n + i], bit(helds, i));
    }
    all == 0
}

// Whether the words of all positions are in order.
fn positions_form(row: &[u32], n: usize) -> bool
    requires { (length row.now ≡ record_words n) × (n ≤ 16) × (get_or row.now 0 0 < 2 ^ n) × (get_or row.now 1 0 < 2 ^ n) }
    ensures { Decides result ((i : ℕ) → i < n → PositionForm n row.now i) }
{
    apart(row[0], row[1]) && apart(row[0], row[2]) && apart(row[1], row[2]) && unheld_zero(row, n)
}

// Whether the words of a record that holds a position are in order.
fn held_form(row: &[u32], n: usize) -> bool
    requires { (length row.now ≡ record_words n) × (n ≤ 16) × (get_or row.now 0 0 ≡ 0 → ⊥) }
    ensures { Decides result (RecordForm n row.now) }
{
    let helds = row[0];
    let removeds = row[1];
    let blanks = row[2];
    let past = past_masks(n);
    helds < past && removeds < past && blanks < past && positions_form(row, n)
}

// Whether a record's words are in order. One that holds no position is free: all its words are zero, which one pass tells.
fn record_form(row: &[u32], n: usize) -> bool
    requires { (length row.now ≡ record_words n) × (n ≤ 16) }
    ensures { Decides result (RecordForm n row.now) }
{
    if row[0] == 0 {
        zeros(row)
    } else {
        held_form(row, n)
    }
}

// Whether the words of all records are in order.
pub fn records_form(records: &[u32], n: usize) -> bool
    requires { n ≤ 16 }
    ensures { Decides result (Each (RecordForm n) (chunks (record_words n) records.now)) }
{
    let width = numbers::row_words(n);
    for row in records.chunks_exact(width) {
        if !record_form(row, n) {
            return false;
        }
    }
    true
}
