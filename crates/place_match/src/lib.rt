// The lowest whole record that equals a segment of the image; the masks of a segment's blocks that are stored and that are blank; and the stored ones'
// copies in consecutive cells.
#![tactic(auto)]

ghost use Rattle.std.specs.Prelude.{◌≡◌, true, false, cond, ℕ, ◌+◌, ◌*◌, ◌%◌, ◌≤◌, ◌<◌, length, get_or};
ghost use Rattle.std.proofs.lemmas.List.Edits.{sets};
ghost use Rattle.lists.specs.Decides.{Decides};
ghost use Rattle.lists.specs.Lists.{all_zero, first_from};
ghost use Rattle.model.specs.Measures.{record_words};
ghost use Rattle.model.specs.State.{Position, Segment, Storage};
ghost use Rattle.model.specs.Image.{block_from, blocks_from, is_blank, with_blanks};
ghost use Rattle.model.specs.Records.{is_held, is_removed, is_blank_position, cell_of, holds, equals};
ghost use Rattle.model.specs.Place.{stored_blocks};
ghost use Rattle.model.specs.Table.{record_to_words, records_in, cells_in, storage_in};
ghost use Rattle.numbers.specs.Measures.{measures_of};
ghost use Rattle.storage.specs.Stored.{Stored};
ghost use Rattle.place_words.specs.Marks.{stored_bit, stored_mask, is_erased, blank_bit, blank_mask, block_if};
ghost use Rattle.place_free.specs.Found.{found};
ghost use Rattle.place_free.specs.Free.{RestFree};
ghost use Rattle.place_match.specs.Fit.{MasksFit, RowFits};

use numbers::{Cell, Measures, RecordNumber};

// Whether a position that is not removed, and is blank just where the image's block at a byte is, holds that block. The bit is 0 for a block that is null or blank, else 1.
fn position_holds(
    image: &[u8],
    at: usize,
    bit: u32,
    pool: &[u8],
    held: u32,
    cell: Cell,
    bytes: usize,
) -> bool
    requires { (at ≤ 131072) × (bit ≡ stored_bit (block_from bytes image.now at)) × (held < 2) × (cell.0 * bytes + bytes ≤ length pool.now) × (64 ≤ bytes) × (bytes ≤ 512) × (bytes % 64 ≡ 0) }
    ensures { (s : Storage) (p : Position) → s.cells ≡ cells_in bytes pool.now → held ≡ cond (is_held p) 1 0 → cell.0 ≡ cell_of p → is_removed p ≡ false → is_blank_position p ≡ is_erased (block_from bytes image.now at) → result ≡ holds with_blanks s p (block_from bytes image.now at) }
{
    if held == 1 {
        let from = cell.byte(bytes);
        blocks::block_same(image, at, &pool[from..from + bytes], bytes)
    } else {
        bit == 0
    }
}

// Whether the first byte of a record's first cell is not that of the segment's first block, where that block is stored.
fn first_differs(
    image: &[u8],
    from: usize,
    mask: u32,
    pool: &[u8],
    cell: Cell,
    bytes: usize,
) -> bool
    requires { (mask % 2 ≡ stored_bit (block_from bytes image.now from)) × (cell.0 * bytes + bytes ≤ length pool.now) × (0 < bytes) × (bytes ≤ 512) }
    ensures { result ≡ true → (s : Storage) (p : Position) → s.cells ≡ cells_in bytes pool.now → cell.0 ≡ cell_of p → false ≡ holds with_blanks s p (block_from bytes image.now from) }
{
    mask % 2 == 1 && pool[cell.byte(bytes)] != image[from]
}

// Whether a record that has lost no position, and whose blank ones are those of the segment of the image that begins at a byte, equals it. The segment's
// mask is given.
fn positions_equal(
    image: &[u8],
    from: usize,
    mask: u32,
    pool: &[u8],
    row: &[u32],
    bytes: usize,
    n: usize,
) -> bool
    requires { (from ≤ 65536) × (mask ≡ stored_mask (blocks_from bytes image.now from n)) × (length row.now ≡ record_words n) × (get_or row.now 1 0 ≡ 0) × ((i : ℕ) → i < n → get_or row.now (3 + i) 0 * bytes + bytes ≤ length pool.now) × (64 ≤ bytes) × (bytes ≤ 512) × (bytes % 64 ≡ 0) × (n ≤ 16) × (get_or row.now 2 0 ≡ blank_mask (blocks_from bytes image.now from n)) }
    ensures { (s : Storage) (seg : Segment) → s.cells ≡ cells_in bytes pool.now → length seg ≡ n → row.now ≡ record_to_words seg → result ≡ equals with_blanks s (blocks_from bytes image.now from n) seg }
{
    let mut held = row[0];
    let mut m = mask;
    for i in 0..n {
        let at = from + i * bytes;
        let cell = Cell(row[3 + i]);
        if !position_holds(image, at, m % 2, pool, held % 2, cell, bytes) {
            return false;
        }
        held /= 2;
        m /= 2;
    }
    true
}

// The same. The first byte settles most records.
fn record_equals(
    image: &[u8],
    from: usize,
    mask: u32,
    pool: &[u8],
    row: &[u32],
    bytes: usize,
    n: usize,
) -> bool
    requires { (from ≤ 65536) × (mask ≡ stored_mask (blocks_from bytes image.now from n)) × (length row.now ≡ record_words n) × (get_or row.now 1 0 ≡ 0) × ((i : ℕ) → i < n → get_or row.now (3 + i) 0 * bytes + bytes ≤ length pool.now) × (64 ≤ bytes) × (bytes ≤ 512) × (bytes % 64 ≡ 0) × (n ≤ 16) × (get_or row.now 2 0 ≡ blank_mask (blocks_from bytes image.now from n)) × (0 < n) }
    ensures { (s : Storage) (seg : Segment) → s.cells ≡ cells_in bytes pool.now → length seg ≡ n → row.now ≡ record_to_words seg → result ≡ equals with_blanks s (blocks_from bytes image.now from n) seg }
{
    !first_differs(image, from, mask, pool, Cell(row[3]), bytes)
        && positions_equal(image, from, mask, pool, row, bytes, n)
}

// Whether a record with these masks can equal a segment whose masks are given.
fn masks_fit(held: u32, removed: u32, blanks: u32, mask: u32, blank: u32) -> bool
    ensures { Decides result (MasksFit mask blank held removed blanks) }
{
    held == mask && removed == 0 && blanks == blank
}

// From record k on, the next before `stop` whose masks fit, or `stop`. The masks settle most records, and a loop over nothing else is fast.
fn next_fitting(
    records: &[u32],
    k: usize,
    stop: usize,
    mask: u32,
    blank: u32,
    width: usize,
) -> usize
    requires { (k ≤ stop) × (stop * width ≤ length records.now) × (3 ≤ width) }
    ensures { (k ≤ result) × (result ≤ stop) × ((j : ℕ) → j < result → k ≤ j → RowFits mask blank records.now (j * width) → ⊥) × (result < stop → RowFits mask blank records.now (result * width)) }
{
    for j in k..stop {
        let at = j * width;
        if masks_fit(records[at], records[at + 1], records[at + 2], mask, blank) {
            return j;
        }
    }
    stop
}

// The lowest record that equals the segment, whose masks are given, the first not 0. The records from `used` on are free, and a free one equals no such segment:
// they are not looked at.
pub fn match_record(
    image: &[u8],
    from: usize,
    mask: u32,
    blank: u32,
    pool: &[u8],
    records: &[u32],
    used: usize,
    m: Measures,
) -> Option<RecordNumber>
    requires { (from ≤ 65536) × (mask ≡ stored_mask (blocks_from m.bytes image.now from m.blocks)) × (0 < mask) × Stored (measures_of m) pool.now records.now × RestFree used (records_in m.blocks records.now) × (blank ≡ blank_mask (blocks_from m.bytes image.now from m.blocks)) }
    ensures { found result ≡ first_from (equals with_blanks (storage_in (measures_of m) pool.now records.now) (blocks_from m.bytes image.now from m.blocks)) 0 (records_in m.blocks records.now) }
{
    let width = numbers::row_words(m.blocks);
    let stop = used.min(numbers::rows(records.len(), m.blocks));
    let mut k = next_fitting(records, 0, stop, mask, blank, width);
    while k < stop {
        let record = RecordNumber(k as u32);
        let at = record.word(m.blocks);
        let end = at + width;
        if record_equals(
            image,
            from,
            mask,
            pool,
            &records[at..end],
            m.bytes,
            m.blocks,
        ) {
            return Some(record);
        }
        k = next_fitting(records, k + 1, stop, mask, blank, width);
    }
    None
}

// Whether the image's block at a byte is all zero. Most blocks are not cut.
fn block_null(image: &[u8], at: usize, bytes: usize) -> bool
    requires { (at ≤ 131072) × (64 ≤ bytes) × (bytes ≤ 512) × (bytes % 64 ≡ 0) }
    ensures { result ≡ all_zero (block_from bytes image.now at) }
{
    let end = at + bytes;
    if end <= image.len() {
        blocks::pieces_zero(&image[at..end])
    } else {
        blocks::block_zero(image, at, bytes)
    }
}

// Whether the image's block at a byte is all 255s. One that the image's end cuts is filled up with zeros, so it is not.
fn block_blank(image: &[u8], at: usize, bytes: usize) -> bool
    requires { (at ≤ 131072) × (64 ≤ bytes) × (bytes ≤ 512) × (bytes % 64 ≡ 0) }
    ensures { result ≡ is_blank with_blanks (block_from bytes image.now at) }
{
    let end = at + bytes;
    end <= image.len() && blocks::pieces_filled(&image[at..end], 255)
}

// Of a segment's blocks, those that are stored and those that are blank; a block is at most one of them.
#[derive(Clone, Copy)]
pub struct Masks {
    pub stored: u32,
    pub blank: u32,
}

// A block's own bit of each.
fn block_marks(image: &[u8], at: usize, bytes: usize) -> Masks
    requires { (at ≤ 131072) × (64 ≤ bytes) × (bytes ≤ 512) × (bytes % 64 ≡ 0) }
    ensures { (result.stored ≡ stored_bit (block_from bytes image.now at)) × (result.blank ≡ blank_bit (block_from bytes image.now at)) }
{
    if block_null(image, at, bytes) {
        Masks {
            stored: 0,
            blank: 0,
        }
    } else if block_blank(image, at, bytes) {
        Masks {
            stored: 0,
            blank: 1,
        }
    } else {
        Masks {
            stored: 1,
            blank: 0,
        }
    }
}

// The segment's, from its last block on.
pub fn segment_masks(image: &[u8], from: usize, bytes: usize, n: usize) -> Masks
    requires { (from ≤ 65536) × (64 ≤ bytes) × (bytes ≤ 512) × (bytes % 64 ≡ 0) × (n ≤ 16) }
    ensures { (result.stored ≡ stored_mask (blocks_from bytes image.now from n)) × (result.blank ≡ blank_mask (blocks_from bytes image.now from n)) × (result.stored < 65536) }
{
    let mut stored: u32 = 0;
    let mut blank: u32 = 0;
    for i in (0..n).rev() {
        let here = block_marks(image, from + i * bytes, bytes);
        stored = here.stored + 2 * stored;
        blank = here.blank + 2 * blank;
    }
    Masks { stored, blank }
}

// The image's block at a byte goes into a cell, where the bit is set.
fn copy_if(bit: u32, image: &[u8], at: usize, pool: &mut [u8], cell: Cell, bytes: usize)
    requires { (at ≤ 131072) × (bit < 2) × (bit ≡ 1 → cell.0 * bytes + bytes ≤ length pool.old) × (0 < bytes) × (bytes ≤ 512) }
    ensures { cells_in bytes pool.new ≡ sets (cells_in bytes pool.old) cell.0 (block_if bit (block_from bytes image.now at)) }
{
    if bit == 1 {
        let start = cell.byte(bytes);
        blocks::put_block(image, at, &mut pool[start..start + bytes], bytes);
    }
}

// The segment's stored blocks go into consecutive cells.
pub fn copy_blocks(
    image: &[u8],
    from: usize,
    pool: &mut [u8],
    first: Cell,
    mask: u32,
    bytes: usize,
    n: usize,
)
    requires { (from ≤ 65536) × (mask ≡ stored_mask (blocks_from bytes image.now from n)) × (first.0 + length (stored_blocks with_blanks (blocks_from bytes image.now from n)) ≤ length (cells_in bytes pool.old)) × (length (cells_in bytes pool.old) ≤ 32768) × (0 < bytes) × (bytes ≤ 512) × (n ≤ 16) }
    ensures { cells_in bytes pool.new ≡ sets (cells_in bytes pool.old) first.0 (stored_blocks with_blanks (blocks_from bytes image.now from n)) }
{
    let mut m = mask;
    let mut cell = first.0;
    for i in 0..n {
        let bit = m % 2;
        copy_if(bit, image, from + i * bytes, pool, Cell(cell), bytes);
        cell += bit;
        m /= 2;
    }
}
