// A block's chain, and a version's image, which is put together in the output.
#![tactic(auto)]

ghost use Rattle.std.specs.Prelude.{◌≡◌, [], ◌++◌, ◌+◌, ◌*◌, ◌≤◌, ◌<◌, max, length, take, drop, get_or};
ghost use Rattle.model.specs.Measures.{parts_for, record_words};
ghost use Rattle.model.specs.State.{null_position};
ghost use Rattle.model.specs.Records.{cell_of};
ghost use Rattle.model.specs.Table.{word_to_pointer, records_in, storage_in, versions_in};
ghost use Rattle.model.specs.Trace.{block_at, image_of, longest_chain};
ghost use Rattle.numbers.specs.Measures.{measures_of};
ghost use Rattle.storage.specs.Stored.{EncodesRecords, Stored};
ghost use Rattle.storage.specs.Fits.{WithinRecords};
ghost use Rattle.restore_trace.specs.Versions.{pointers_at, fill_byte, Traceable, DirectWithin, Traces};

use numbers::{Block, Cell, Measures, Pointer, RecordNumber};

// The pointer at which the tracing of a block ends, and how many it followed.
#[derive(Clone, Copy)]
pub struct Traced {
    pub pointer: Pointer,
    pub hops: u32,
}

// A block of the first of h slots is traced through the newer ones; a slot is for images of b blocks of so many bytes.
pub fn trace(slots: &[u32], bytes: usize, b: usize, h: usize, block: Block) -> Traced
    requires traceable { Traceable bytes b h slots.now }
    requires block_in_bounds { block.0 < length (pointers_at (versions_in bytes b h slots.now) 0) }
    ensures { Traces (versions_in bytes b h slots.now) block.0 result }
{
    let mut v: usize = 0;
    let mut pointer = Pointer(slots[3 + block.0 as usize]);
    while pointer.is_indirect() {
        let named = pointer.block();
        v += 1;
        pointer = Pointer(slots[v * (3 + b) + (3 + named.0 as usize)]);
    }
    Traced {
        pointer,
        hops: v as u32,
    }
}

// The cell of a position, of n.
pub fn cell_of(words: &[u32], number: RecordNumber, position: u32, n: usize) -> Cell
    requires n_bound { (n ≤ 16) × EncodesRecords n words.now (records_in n words.now) }
    requires n_in_bounds { (number.0 * record_words n + record_words n ≤ length words.now) × (position < n) }
    ensures { result.0 ≡ cell_of (get_or (get_or (records_in n words.now) number.0 []) position null_position) }
{
    let at = number.word(n) + (3 + position as usize);
    Cell(words[at])
}

// The byte that fills a block that has no cell.
fn fill_byte(pointer: Pointer) -> u8
    ensures { result ≡ fill_byte (word_to_pointer pointer.0) }
{
    if pointer.is_blank() { 255 } else { 0 }
}

// The front of the block that a pointer, which is not indirect, leads to goes to a block's place in the output.
pub fn put_block(
    pool: &[u8],
    words: &[u32],
    pointer: Pointer,
    out: &mut [u8],
    block: Block,
    n: usize,
    m: Measures,
)
    requires stored { Stored (measures_of m) pool.now words.now }
    requires within_records { WithinRecords m.blocks (length words.now) (word_to_pointer pointer.0) × (n ≤ m.bytes) × (block.0 * m.bytes + n ≤ length out.old) }
    ensures { out.new ≡ take (block.0 * m.bytes) out.old ++ (take n (block_at m.bytes (storage_in (measures_of m) pool.now words.now) (word_to_pointer pointer.0)) ++ drop (block.0 * m.bytes + n) out.old) }
{
    if pointer.is_direct() {
        let cell = cell_of(words, pointer.record(), pointer.position(), m.blocks);
        blocks::copy_block(pool, cell, out, block, n, m.bytes);
    } else {
        blocks::fill_block(out, block, n, fill_byte(pointer), m.bytes);
    }
}

// The image of the first of h slots, and the longest chain. Each block goes straight to its place, the last only up to the length.
pub fn restore_image(
    pool: &[u8],
    words: &[u32],
    slots: &[u32],
    b: usize,
    h: usize,
    out: &mut [u8],
    m: Measures,
) -> u32
    requires stored { Stored (measures_of m) pool.now words.now }
    requires traceable { Traceable m.bytes b h slots.now × DirectWithin m.blocks m.bytes b h slots.now (length words.now) }
    requires slots_len { (length (pointers_at (versions_in m.bytes b h slots.now) 0) ≡ parts_for m.bytes (get_or slots.now 1 0)) × (get_or slots.now 1 0 ≤ length out.old) }
    ensures bytes { out.new ≡ image_of m.bytes (storage_in (measures_of m) pool.now words.now) (versions_in m.bytes b h slots.now) ++ drop (get_or slots.now 1 0) out.old }
    ensures hops { result ≡ longest_chain (versions_in m.bytes b h slots.now) }
{
    let len = slots[1] as usize;
    let bytes = m.bytes;
    let count = numbers::parts_for(bytes, len);
    let mut most: u32 = 0;
    for n in 0..count {
        let block = Block(n as u32);
        let traced = trace(slots, bytes, b, h, block);
        let at = block.byte(bytes);
        let end = (at + bytes).min(len);
        put_block(pool, words, traced.pointer, out, block, end - at, m);
        most = most.max(traced.hops);
    }
    most
}
