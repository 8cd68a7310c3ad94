// Step 3 for one record. Its positions whose count is 0 are removed, in one of four ways.
#![tactic(auto)]

ghost use Rattle.std.specs.Prelude.{◌≡◌, ◌*◌, ◌≤◌, ◌<◌, length};
ghost use Rattle.lists.specs.Decides.{Decides};
ghost use Rattle.numbers.specs.Measures.{measures_of};
ghost use Rattle.model.specs.Table.{records_in, storage_in};
ghost use Rattle.model.specs.Sweep.{sweep_record};
ghost use Rattle.sweep_laws.specs.Marked.{EncodesMarked, StoredMarked, Loaded};
ghost use Rattle.sweep_laws.specs.Ways.{unreferenced_at, held_at, referenced_at, freed, struck_only, compacted, removed_at, Chosen};

use numbers::{Cell, Measures, RecordNumber};
use records::Record;

// All of the record goes.
pub fn free_record(
    pool: &mut [u8],
    words: &mut [u32],
    occupied: &mut [bool],
    number: RecordNumber,
    old: Record,
    unreferenced: u32,
    m: Measures,
)
    requires stored_marked { StoredMarked (measures_of m) pool.old words.old occupied.old }
    requires loaded { Loaded m.blocks words.old number.0 old unreferenced }
    ensures { EncodesMarked (measures_of m) pool.new words.new occupied.new (freed (measures_of m) pool.old words.old number.0) }
{
    pool::clear_marked(pool, occupied, old.held, old.cells, m.bytes);
    let new = Record::free(m.blocks);
    new.store(words, number, m.blocks);
}

// Only the freed cells are cleared.
pub fn strike_record(
    pool: &mut [u8],
    words: &mut [u32],
    occupied: &mut [bool],
    number: RecordNumber,
    old: Record,
    unreferenced: u32,
    m: Measures,
)
    requires stored_marked { StoredMarked (measures_of m) pool.old words.old occupied.old }
    requires loaded { Loaded m.blocks words.old number.0 old unreferenced }
    ensures { EncodesMarked (measures_of m) pool.new words.new occupied.new (struck_only (measures_of m) pool.old words.old number.0) }
{
    pool::clear_marked(pool, occupied, unreferenced, old.cells, m.bytes);
    let new = old.strike_all(unreferenced);
    new.store(words, number, m.blocks);
}

// The blocks that stay are copied into a run, and all old cells are cleared.
pub fn move_record(
    pool: &mut [u8],
    words: &mut [u32],
    occupied: &mut [bool],
    number: RecordNumber,
    old: Record,
    unreferenced: u32,
    start: Cell,
    m: Measures,
)
    requires stored_marked { StoredMarked (measures_of m) pool.old words.old occupied.old }
    requires loaded { Loaded m.blocks words.old number.0 old unreferenced }
    requires chosen { Chosen (measures_of m) pool.old words.old number.0 start.0 }
    ensures { EncodesMarked (measures_of m) pool.new words.new occupied.new (compacted (measures_of m) pool.old words.old number.0) }
{
    let keep = old.held - unreferenced;
    pool::copy_marked(pool, occupied, keep, old.cells, start, m.bytes);
    pool::clear_marked(pool, occupied, old.held, old.cells, m.bytes);
    let new = old.strike_all(unreferenced).renumber(start);
    new.store(words, number, m.blocks);
}

// The same if there is a run; else only the freed cells are cleared. The record's old cells still count as occupied.
pub fn compact_record(
    pool: &mut [u8],
    words: &mut [u32],
    occupied: &mut [bool],
    number: RecordNumber,
    old: Record,
    unreferenced: u32,
    m: Measures,
)
    requires stored_marked { StoredMarked (measures_of m) pool.old words.old occupied.old }
    requires loaded { Loaded m.blocks words.old number.0 old unreferenced }
    requires number_nonzero { 0 < referenced_at m.blocks words.old number.0 }
    ensures { EncodesMarked (measures_of m) pool.new words.new occupied.new (compacted (measures_of m) pool.old words.old number.0) }
{
    let keep = old.held - unreferenced;
    let need = keep.count_ones() as usize;
    match runs::best_run(occupied, false, need) {
        Some(run) => {
            move_record(
                pool,
                words,
                occupied,
                number,
                old,
                unreferenced,
                run.start,
                m,
            );
        }
        None => strike_record(pool, words, occupied, number, old, unreferenced, m),
    }
}

// Whether r of s positions are less than the rebuild percentage.
fn under_percent(r: u32, s: u32, percent: u32) -> bool
    requires { (r ≤ 16) × (s ≤ 16) × (percent ≤ 100) }
    ensures { Decides result (100 * r < percent * s) }
{
    100 * r < percent * s
}

// r positions of the record go, and s are held.
pub fn remove_from(
    pool: &mut [u8],
    words: &mut [u32],
    occupied: &mut [bool],
    number: RecordNumber,
    old: Record,
    unreferenced: u32,
    r: u32,
    s: u32,
    m: Measures,
)
    requires stored_marked { StoredMarked (measures_of m) pool.old words.old occupied.old }
    requires loaded { Loaded m.blocks words.old number.0 old unreferenced }
    requires r_value { (r ≡ unreferenced_at m.blocks words.old number.0) × (s ≡ held_at m.blocks words.old number.0) × (r ≤ s) × (s ≤ 16) }
    ensures { EncodesMarked (measures_of m) pool.new words.new occupied.new (removed_at (measures_of m) pool.old words.old number.0) }
{
    if r == 0 {
        return;
    }
    if r == s {
        free_record(pool, words, occupied, number, old, unreferenced, m);
    } else if under_percent(r, s, m.percent) {
        strike_record(pool, words, occupied, number, old, unreferenced, m);
    } else {
        compact_record(pool, words, occupied, number, old, unreferenced, m);
    }
}

// A record of which some position may go.
fn sweep_loaded(
    pool: &mut [u8],
    words: &mut [u32],
    occupied: &mut [bool],
    number: RecordNumber,
    m: Measures,
)
    requires stored_marked { StoredMarked (measures_of m) pool.old words.old occupied.old }
    requires number_in_bounds { number.0 < length (records_in m.blocks words.old) }
    ensures { EncodesMarked (measures_of m) pool.new words.new occupied.new (sweep_record (measures_of m) (storage_in (measures_of m) pool.old words.old) number.0) }
{
    let old = records::load(words, number, m.blocks);
    let unreferenced = old.unreferenced();
    let r = unreferenced.count_ones();
    let s = old.size();
    remove_from(pool, words, occupied, number, old, unreferenced, r, s, m);
}

// Any record. One that keeps all positions is not loaded.
pub fn sweep_record(
    pool: &mut [u8],
    words: &mut [u32],
    occupied: &mut [bool],
    number: RecordNumber,
    m: Measures,
)
    requires stored_marked { StoredMarked (measures_of m) pool.old words.old occupied.old }
    requires number_in_bounds { number.0 < length (records_in m.blocks words.old) }
    ensures { EncodesMarked (measures_of m) pool.new words.new occupied.new (sweep_record (measures_of m) (storage_in (measures_of m) pool.old words.old) number.0) }
{
    if records::any_unreferenced(words, number, m.blocks) {
        sweep_loaded(pool, words, occupied, number, m);
    }
}
