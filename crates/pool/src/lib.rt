// Blocks moved and cleared within the pool, with the marks of the occupied cells kept up to date.
#![tactic(auto)]

ghost use Rattle.std.specs.Prelude.{◌≡◌, ℕ, ◌+◌, ◌*◌, ◌^◌, ◌≤◌, ◌<◌, length, get_or};
ghost use Rattle.std.specs.Int.Count.{ones};
ghost use Rattle.pool.specs.Pool.{copy_to, clear_at, take_at, free_at, mark_at, along};

use numbers::Cell;

// The block of a cell is copied to another.
#[tactic(auto, unfolding(crate::specs::Pool::copy_to))]
pub fn move_block(pool: &mut [u8], from: Cell, to: Cell, bytes: usize)
    requires { (bytes ≤ 512) × (from.0 * bytes + bytes ≤ length pool.old) × (to.0 * bytes + bytes ≤ length pool.old) }
    ensures { pool.new ≡ copy_to bytes pool.old from.0 to.0 }
{
    let start = from.byte(bytes);
    pool.copy_within(start..start + bytes, to.byte(bytes));
}

// The blocks of the cells that a mask marks are copied, in order, to the cells from `start` on, which are taken.
#[tactic(auto, using(numbers::proofs::Bits::bits))]
pub fn copy_marked(
    pool: &mut [u8],
    occupied: &mut [bool],
    mask: u32,
    cells: [u32; 16],
    start: Cell,
    bytes: usize,
)
    requires { (mask < 65536) × (start.0 + ones mask ≤ length occupied.old) × ((k : ℕ) → get_or cells k 0 < length occupied.old) × (bytes ≤ 512) × (length pool.old ≡ length occupied.old * bytes) × (length occupied.old ≤ 32768) }
    ensures bytes { pool.new ≡ along (copy_to bytes) mask start.0 cells pool.old }
    ensures marks { occupied.new ≡ along take_at mask start.0 cells occupied.old }
{
    let mut left = mask;
    let mut at = start.0;
    while left != 0 {
        let p = left.trailing_zeros();
        let i = p as usize;
        let c = cells[i];
        let t = at as usize;
        occupied[t] = true;
        move_block(pool, Cell(c), Cell(at), bytes);
        at += 1;
        left -= 1u32 << p;
    }
}

// The cells that a mask marks are cleared and freed.
#[tactic(auto, using(numbers::proofs::Bits::bits))]
pub fn clear_marked(
    pool: &mut [u8],
    occupied: &mut [bool],
    mask: u32,
    cells: [u32; 16],
    bytes: usize,
)
    requires { (mask < 65536) × ((k : ℕ) → get_or cells k 0 < length occupied.old) × (bytes ≤ 512) × (length pool.old ≡ length occupied.old * bytes) × (length occupied.old ≤ 32768) }
    ensures bytes { pool.new ≡ along (clear_at bytes) mask 0 cells pool.old }
    ensures marks { occupied.new ≡ along free_at mask 0 cells occupied.old }
{
    let mut left = mask;
    while left != 0 {
        let p = left.trailing_zeros();
        let i = p as usize;
        let c = cells[i];
        let n = c as usize;
        occupied[n] = false;
        blocks::clear_cell(pool, Cell(c), bytes);
        left -= 1u32 << p;
    }
}

// The cells that a mask marks are taken.
#[tactic(auto, using(numbers::proofs::Bits::bits))]
pub fn take_marked(occupied: &mut [bool], mask: u32, cells: &[u32])
    requires { (mask < 2 ^ length cells.now) × (mask < 65536) × ((k : ℕ) → get_or cells.now k 0 < length occupied.old) × (length occupied.old ≤ 32768) }
    ensures { occupied.new ≡ along mark_at mask 0 cells.now occupied.old }
{
    let mut left = mask;
    while left != 0 {
        let p = left.trailing_zeros();
        let i = p as usize;
        let c = cells[i] as usize;
        occupied[c] = true;
        left -= 1u32 << p;
    }
}
