// The cells that positions name: within the pool, no two the same, and just those that are not all zero.
#![tactic(auto)]

ghost use Rattle.std.specs.Prelude.{true, false, ◌≡◌, [], ◌∷◌, ℕ, ◌+◌, ◌*◌, ◌/◌, ◌%◌, ◌≤◌, ◌<◌, length, get_or, take, drop};
ghost use Rattle.lists.specs.Decides.{Decides};
ghost use Rattle.lists.specs.Marks.{MarkResult};
ghost use Rattle.model.specs.State.{null_position};
ghost use Rattle.model.specs.Measures.{record_words};
ghost use Rattle.model.specs.Records.{cells_of, named_cells};
ghost use Rattle.model.specs.Sound.{is_filled};
ghost use Rattle.model.specs.Table.{segment_in, records_in, storage_in};
ghost use Rattle.laws.specs.Ranges.{Measured};
ghost use Rattle.numbers.specs.Measures.{measures_of};
ghost use Rattle.audit_cells.specs.Cells.{CellsSound};

use numbers::Measures;

// A cell is marked; false if it is no cell or marked already.
fn mark_cell(cell: u32, cells: usize, occupied: &mut [bool]) -> bool
    requires { cells ≤ length occupied.old }
    ensures { MarkResult result cells (cell ∷ []) occupied.old occupied.new }
{
    let c = cell as usize;
    if cells <= c || occupied[c] {
        return false;
    }
    occupied[c] = true;
    true
}

// The cells of a record, from one held position to the next.
fn mark_record(row: &[u32], n: usize, cells: usize, occupied: &mut [bool]) -> bool
    requires { (n ≤ 16) × (length row.now ≡ record_words n) × (cells ≤ length occupied.old) }
    ensures { MarkResult result cells (cells_of (segment_in n row.now)) occupied.old occupied.new }
{
    let mut m = row[0];
    while m != 0 {
        let p = u32::trailing_zeros(m);
        let i = p as usize;
        if n <= i {
            return true;
        }
        if !mark_cell(row[3 + i], cells, occupied) {
            return false;
        }
        m -= 1u32 << p;
    }
    true
}

// The cells of all records.
fn mark_all(records: &[u32], n: usize, cells: usize, occupied: &mut [bool]) -> bool
    requires { (n ≤ 16) × (cells ≤ length occupied.old) }
    ensures { MarkResult result cells (named_cells (records_in n records.now)) occupied.old occupied.new }
{
    let width = numbers::row_words(n);
    for row in records.chunks_exact(width) {
        if !mark_record(row, n, cells, occupied) {
            return false;
        }
    }
    true
}

// Whether a cell has a byte other than zero if and only if it is occupied.
fn cell_matches(cell: &[u8], occupied: bool) -> bool
    requires { (64 ≤ length cell.now) × (length cell.now % 64 ≡ 0) }
    ensures { Decides result (occupied ≡ is_filled cell.now) }
{
    blocks::pieces_zero(cell) != occupied
}

// Whether that holds of every cell.
fn cells_filled(pool: &[u8], occupied: &[bool], bytes: usize) -> bool
    requires { (0 < bytes) × (bytes ≤ 512) × (length pool.now / bytes ≤ length occupied.now) × (length occupied.now ≤ 32768) × (64 ≤ bytes) × (bytes % 64 ≡ 0) }
    ensures { Decides result ((c : ℕ) → c < length pool.now / bytes → get_or occupied.now c false ≡ is_filled (take bytes (drop (c * bytes) pool.now))) }
{
    for (cell, &marked) in pool.chunks_exact(bytes).zip(occupied) {
        if !cell_matches(cell, marked) {
            return false;
        }
    }
    true
}

// Whether no two positions name one cell, and the cells named are those that are not zero.
pub fn cells_sound(pool: &[u8], records: &[u32], m: Measures) -> bool
    requires { Measured (measures_of m) × (length pool.now ≤ 32768 * m.bytes) }
    ensures { Decides result (CellsSound (storage_in (measures_of m) pool.now records.now)) }
{
    let cells = numbers::parts(pool.len(), m.bytes);
    let mut occupied = [false; 32768];
    if !mark_all(records, m.blocks, cells, &mut occupied) {
        return false;
    }
    cells_filled(pool, &occupied, m.bytes)
}
