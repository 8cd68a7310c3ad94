// Fingerprints of segment records, hashed where they lie.
#![tactic(auto)]

ghost use Rattle.std.specs.Prelude.{◌≡◌, false, cond, ℕ, ◌+◌, ◌*◌, ◌%◌, ◌≤◌, ◌<◌, length, get_or};
ghost use Rattle.lists.specs.Lists.{every};
ghost use Rattle.lists.specs.Rows.{rows};
ghost use Rattle.model.specs.Measures.{record_words};
ghost use Rattle.model.specs.State.{Position, Segment, Storage};
ghost use Rattle.model.specs.Records.{is_held, is_removed, is_blank_position, cell_of};
ghost use Rattle.model.specs.Table.{cells_in, record_to_words};
ghost use Rattle.sha1_definition.specs.Sha1.{absorbed, digest};
ghost use Rattle.laws.specs.Ranges.{Measured};
ghost use Rattle.numbers.specs.Measures.{measures_of};
ghost use Rattle.sent.specs.Sent.{lets, can_match, content_of, zero_segment};

use numbers::{Cell, Measures};
use sha1_definition::{Digest, State};

// A position's content, after what was taken before it. The bits tell a held one and a blank one.
// Kept: a promise that may not change (absorb_position: the bits are numbers in its clauses).
pub fn absorb_position(
    h: State,
    pool: &[u8],
    held: u32,
    blank: u32,
    cell: Cell,
    bytes: usize,
) -> State
    requires { (held < 2) × (blank < 2) × (cell.0 * bytes + bytes ≤ length pool.now) × (64 ≤ bytes) × (bytes ≤ 512) × (bytes % 64 ≡ 0) }
    ensures { (s : Storage) (p : Position) → s.cells ≡ cells_in bytes pool.now → held ≡ cond (is_held p) 1 0 → blank ≡ cond (is_blank_position p) 1 0 → cell.0 ≡ cell_of p → result ≡ absorbed h (content_of bytes s p) }
{
    if held == 1 {
        let from = cell.byte(bytes);
        let end = from + bytes;
        return sha1_message::absorb_all(h, &pool[from..end]);
    }
    let pieces = (bytes / 64) as u64;
    if blank == 1 {
        return sha1_message::absorb_same(h, 255, pieces);
    }
    sha1_message::absorb_same(h, 0, pieces)
}

// The fingerprint of a record's content, as five words.
pub fn record_digest(pool: &[u8], row: &[u32], bytes: usize, n: usize) -> Digest
    requires { (length row.now ≡ record_words n) × ((i : ℕ) → i < n → get_or row.now (3 + i) 0 * bytes + bytes ≤ length pool.now) × (64 ≤ bytes) × (bytes ≤ 512) × (bytes % 64 ≡ 0) × (n ≤ 16) }
    ensures { (s : Storage) (seg : Segment) → s.cells ≡ cells_in bytes pool.now → length seg ≡ n → row.now ≡ record_to_words seg → result ≡ digest (rows (content_of bytes s) seg) }
{
    let mut h = sha1_chunk::start();
    let mut held = row[0];
    let mut blank = row[2];
    for i in 0..n {
        let cell = row[3 + i];
        h = absorb_position(h, pool, held % 2, blank % 2, Cell(cell), bytes);
        held /= 2;
        blank /= 2;
    }
    sha1_message::finish_whole(h, (n * bytes / 64) as u64)
}

// The fingerprint of a segment of zeros.
pub fn zero_digest(m: Measures) -> Digest
    requires { Measured (measures_of m) }
    ensures { result ≡ digest (zero_segment (measures_of m)) }
{
    sha1_message::filled(0, (m.segment_bytes() / 64) as u64)
}

// Whether a position that is not removed lets its record match: it is not held, or its cell is not all 255s.
fn position_lets(pool: &[u8], held: u32, cell: Cell, bytes: usize) -> bool
    requires { (held < 2) × (cell.0 * bytes + bytes ≤ length pool.now) × (64 ≤ bytes) × (bytes ≤ 512) × (bytes % 64 ≡ 0) }
    ensures { (s : Storage) (p : Position) → s.cells ≡ cells_in bytes pool.now → held ≡ cond (is_held p) 1 0 → is_removed p ≡ false → cell.0 ≡ cell_of p → result ≡ lets s p }
{
    if held == 0 {
        return true;
    }
    let from = cell.byte(bytes);
    let end = from + bytes;
    !blocks::pieces_filled(&pool[from..end], 255)
}

// Whether all of them do, in a record that has lost no position.
fn positions_let(pool: &[u8], row: &[u32], bytes: usize, n: usize) -> bool
    requires { (length row.now ≡ record_words n) × (get_or row.now 1 0 ≡ 0) × ((i : ℕ) → i < n → get_or row.now (3 + i) 0 * bytes + bytes ≤ length pool.now) × (64 ≤ bytes) × (bytes ≤ 512) × (bytes % 64 ≡ 0) × (n ≤ 16) }
    ensures { (s : Storage) (seg : Segment) → s.cells ≡ cells_in bytes pool.now → length seg ≡ n → row.now ≡ record_to_words seg → result ≡ every (lets s) seg }
{
    let mut held = row[0];
    for i in 0..n {
        let cell = row[3 + i];
        if !position_lets(pool, held % 2, Cell(cell), bytes) {
            return false;
        }
        held /= 2;
    }
    true
}

// Whether a record can match: it is in use, has lost no position, and no cell of it is all 255s.
pub fn can_match(pool: &[u8], row: &[u32], bytes: usize, n: usize) -> bool
    requires { (length row.now ≡ record_words n) × ((i : ℕ) → i < n → get_or row.now (3 + i) 0 * bytes + bytes ≤ length pool.now) × (64 ≤ bytes) × (bytes ≤ 512) × (bytes % 64 ≡ 0) × (n ≤ 16) }
    ensures { (s : Storage) (seg : Segment) → s.cells ≡ cells_in bytes pool.now → length seg ≡ n → row.now ≡ record_to_words seg → result ≡ can_match s seg }
{
    if row[1] != 0 {
        return false;
    }
    if row[0] == 0 && row[2] == 0 {
        return false;
    }
    positions_let(pool, row, bytes, n)
}
