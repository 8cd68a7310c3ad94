// Counts rise and fall, then step 3: positions whose count is 0 are removed, record by record in rising number.
#![tactic(auto)]

ghost use Rattle.std.specs.Prelude.{◌≡◌, false, not, map, ℕ, ◌+◌, ◌*◌, ◌/◌, ◌^◌, ◌≤◌, ◌<◌, length, get_or, replicate};
ghost use Rattle.lists.specs.Marks.{marked};
ghost use Rattle.numbers.specs.Measures.{measures_of};
ghost use Rattle.model.specs.Measures.{record_words};
ghost use Rattle.model.specs.Records.{cells_of, named_cells, count_of};
ghost use Rattle.model.specs.Runs.{free_cells};
ghost use Rattle.model.specs.Table.{word_to_pointer, records_in, storage_in};
ghost use Rattle.model.specs.Sweep.{release, claim, sweep};
ghost use Rattle.storage.specs.Stored.{Encodes, Stored, position_in};
ghost use Rattle.storage.specs.Fits.{WithinRecords, NamesHeld};
ghost use Rattle.sweep_laws.specs.Marked.{EncodesMarked, StoredMarked, NamedIn};
ghost use Rattle.sweep_laws.specs.Ways.{segment_at};

use numbers::{Measures, RecordNumber};

// All records, with the occupied cells marked.
pub fn sweep_marked(pool: &mut [u8], words: &mut [u32], occupied: &mut [bool], m: Measures)
    requires { StoredMarked (measures_of m) pool.old words.old occupied.old }
    ensures { EncodesMarked (measures_of m) pool.new words.new occupied.new (sweep (measures_of m) (storage_in (measures_of m) pool.old words.old)) }
{
    let n = numbers::rows(words.len(), m.blocks);
    for k in 0..n {
        sweep_record::sweep_record(pool, words, occupied, RecordNumber(k as u32), m);
    }
}

// The cells that a record names are marked. A record that holds no position names none.
fn mark_record(words: &[u32], occupied: &mut [bool], number: RecordNumber, n: usize)
    requires named_in { NamedIn n words.now (length occupied.old) }
    requires occupied_len_bound { (length occupied.old ≤ 32768) × (number.0 < length words.now / record_words n) }
    ensures { occupied.new ≡ marked (cells_of (segment_at n words.now number.0)) occupied.old }
{
    let at = number.word(n);
    if words[at] != 0 {
        let from = at + 3;
        pool::take_marked(occupied, words[at], &words[from..from + n]);
    }
}

// The cells that the records name are marked.
pub fn mark_named(words: &[u32], occupied: &mut [bool], n: usize)
    requires named_in { NamedIn n words.now (length occupied.old) }
    requires occupied_len_bound { length occupied.old ≤ 32768 }
    ensures { occupied.new ≡ marked (named_cells (records_in n words.now)) occupied.old }
{
    let count = numbers::rows(words.len(), n);
    for k in 0..count {
        mark_record(words, occupied, RecordNumber(k as u32), n);
    }
}

// The sweep, with room for the marks.
pub fn sweep_with(pool: &mut [u8], words: &mut [u32], occupied: &mut [bool], m: Measures)
    requires stored { Stored (measures_of m) pool.old words.old }
    requires occupied_value { (occupied.old ≡ replicate (length occupied.old) false) × (length occupied.old * m.bytes ≡ length pool.old) }
    ensures { Encodes (measures_of m) pool.new words.new (sweep (measures_of m) (storage_in (measures_of m) pool.old words.old)) }
{
    mark_named(words, occupied, m.blocks);
    sweep_marked(pool, words, occupied, m);
}

pub fn sweep_all(pool: &mut [u8], words: &mut [u32], m: Measures)
    requires { Stored (measures_of m) pool.old words.old }
    ensures { Encodes (measures_of m) pool.new words.new (sweep (measures_of m) (storage_in (measures_of m) pool.old words.old)) }
{
    let mut occupied = [false; 32768];
    let n = numbers::parts(pool.len(), m.bytes);
    sweep_with(pool, words, &mut occupied[..n], m);
}

// Each mark becomes the other.
fn flip(marks: &mut [bool])
    ensures { marks.new ≡ map not marks.old }
{
    for mark in marks.iter_mut() {
        *mark = !*mark;
    }
}

// The sweep with a map of the free cells, which becomes one of the occupied cells: the records are not read for it.
pub fn sweep_free(pool: &mut [u8], words: &mut [u32], free: &mut [bool], m: Measures)
    requires stored { Stored (measures_of m) pool.old words.old }
    requires free_value { free.old ≡ free_cells (storage_in (measures_of m) pool.old words.old) }
    ensures { Encodes (measures_of m) pool.new words.new (sweep (measures_of m) (storage_in (measures_of m) pool.old words.old)) }
{
    flip(free);
    sweep_marked(pool, words, free, m);
}

// Pointers let go of their blocks.
pub fn release_and_sweep(pool: &mut [u8], words: &mut [u32], pointers: &[u32], m: Measures)
    requires stored { Stored (measures_of m) pool.old words.old }
    requires by_index { (i : ℕ) → i < length pointers.now → WithinRecords m.blocks (length words.old) (word_to_pointer (get_or pointers.now i 0)) }
    ensures { Encodes (measures_of m) pool.new words.new (sweep (measures_of m) (release (storage_in (measures_of m) pool.old words.old) (map word_to_pointer pointers.now))) }
{
    sweep_counts::release(words, pointers, m.blocks);
    sweep_all(pool, words, m);
}

// Pointers taken over claim their blocks, before others let go of theirs.
pub fn exchange(pool: &mut [u8], words: &mut [u32], taken: &[u32], gone: &[u32], m: Measures)
    requires stored { Stored (measures_of m) pool.old words.old }
    requires by_index { ((i : ℕ) → i < length taken.now → WithinRecords m.blocks (length words.old) (word_to_pointer (get_or taken.now i 0)) × NamesHeld (records_in m.blocks words.old) (word_to_pointer (get_or taken.now i 0))) × ((i : ℕ) → i < length gone.now → WithinRecords m.blocks (length words.old) (word_to_pointer (get_or gone.now i 0))) }
    requires by_index_2 { (k i : ℕ) → count_of (position_in (records_in m.blocks words.old) k i) + length taken.now < 2 ^ 32 }
    ensures { Encodes (measures_of m) pool.new words.new (sweep (measures_of m) (release (claim (storage_in (measures_of m) pool.old words.old) (map word_to_pointer taken.now)) (map word_to_pointer gone.now))) }
{
    sweep_counts::claim(words, taken, m.blocks);
    release_and_sweep(pool, words, gone, m);
}
