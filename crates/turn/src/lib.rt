// Step 2 of a backup: the previous version's direct pointers turn blank, or to equal blocks of the new image.
#![tactic(auto)]

ghost use Rattle.std.specs.Prelude.{◌≡◌, map, ◌++◌, ℕ, ◌+◌, ◌*◌, ◌%◌, ◌≤◌, ◌<◌, length, get_or, take};
ghost use Rattle.std.specs.Option.{MatchOption};
ghost use Rattle.lists.specs.Lists.{same_numbers, first_from};
ghost use Rattle.model.specs.Image.{image_blocks, with_blanks};
ghost use Rattle.model.specs.Measures.{parts_for};
ghost use Rattle.model.specs.Turn.{indirect_at, turns_to, turn, turning};
ghost use Rattle.model.specs.Table.{storage_in, pointer_word, word_to_pointer};
ghost use Rattle.numbers.specs.Measures.{measures_of};
ghost use Rattle.storage.specs.Stored.{Stored};
ghost use Rattle.turn.specs.Turn.{WordFits, target_word, target_of, released_of, word_if};

use numbers::{Block, Measures, Pointer};

// The next block of the image, from block n on, that begins with a byte. The first byte settles most blocks, and a loop over nothing else is fast.
fn next_start(image: &[u8], n: usize, count: usize, byte: u8, bytes: usize) -> Option<usize>
    requires { (n ≤ count) × (count ≡ parts_for bytes (length image.now)) × (length image.now ≤ 65536) × (0 < bytes) × (bytes ≤ 512) }
    ensures { MatchOption result ((k : ℕ) → n ≤ k → k < count → get_or image.now (k * bytes) 0 ≡ byte → ⊥) (λ i. (n ≤ i) × (i < count) × (get_or image.now (i * bytes) 0 ≡ byte) × ((k : ℕ) → n ≤ k → k < i → get_or image.now (k * bytes) 0 ≡ byte → ⊥)) }
{
    (n..count).find(|k| image[k * bytes] == byte)
}

// An indirect pointer to the lowest block of the image that equals a cell; the pointer itself if none does.
fn find_block(pointer: Pointer, image: &[u8], cell: &[u8], bytes: usize) -> Pointer
    requires { (length image.now ≤ 65536) × (length cell.now ≡ bytes) × (64 ≤ bytes) × (bytes ≤ 512) × (bytes % 64 ≡ 0) }
    ensures { result.0 ≡ target_word pointer.0 (indirect_at (first_from (same_numbers cell.now) 0 (image_blocks bytes image.now))) }
{
    let count = numbers::parts_for(bytes, image.len());
    let mut n = 0;
    while let Some(k) = next_start(image, n, count, cell[0], bytes) {
        let block = Block(k as u32);
        if blocks::block_same(image, block.byte(bytes), cell, bytes) {
            return Pointer::indirect(block);
        }
        n = k + 1;
    }
    pointer
}

// What a direct pointer to a cell turns into: blank if the cell is, else indirect or itself.
fn turned_to(pointer: Pointer, image: &[u8], cell: &[u8], bytes: usize) -> Pointer
    requires { (length image.now ≤ 65536) × (length cell.now ≡ bytes) × (64 ≤ bytes) × (bytes ≤ 512) × (bytes % 64 ≡ 0) }
    ensures { result.0 ≡ target_word pointer.0 (turns_to with_blanks (image_blocks bytes image.now) cell.now) }
{
    if blocks::pieces_filled(cell, 255) {
        Pointer::blank()
    } else {
        find_block(pointer, image, cell, bytes)
    }
}

// What a pointer turns into; itself if it does not turn.
fn target_of(pointer: Pointer, image: &[u8], pool: &[u8], records: &[u32], m: Measures) -> Pointer
    requires { (length image.now ≤ 65536) × Stored (measures_of m) pool.now records.now × WordFits m.blocks (length records.now) pointer.0 }
    ensures { result.0 ≡ target_of (measures_of m) image.now pool.now records.now pointer.0 }
{
    if !pointer.is_direct() {
        return pointer;
    }
    let cell = restore_trace::cell_of(records, pointer.record(), pointer.position(), m.blocks);
    let start = cell.byte(m.bytes);
    let end = start + m.bytes;
    turned_to(pointer, image, &pool[start..end], m.bytes)
}

// What each pointer turns into.
fn find_targets(
    pointers: &[u32],
    image: &[u8],
    pool: &[u8],
    records: &[u32],
    targets: &mut [u32],
    m: Measures,
)
    requires { (length image.now ≤ 65536) × Stored (measures_of m) pool.now records.now × (length targets.old ≡ length pointers.now) × ((b : ℕ) → b < length pointers.now → WordFits m.blocks (length records.now) (get_or pointers.now b 0)) }
    ensures { targets.new ≡ map (target_of (measures_of m) image.now pool.now records.now) pointers.now }
{
    for (b, word) in pointers.iter().enumerate() {
        targets[b] = target_of(Pointer(*word), image, pool, records, m).0;
    }
}

// A pointer that turns is added to the list: its target is another.
fn keep_pointer(pointer: Pointer, target: Pointer, out: &mut [u32], m: usize) -> usize
    requires { m < length out.old }
    ensures { (take result out.new ≡ take m out.old ++ word_if pointer.0 target.0) × (result ≤ m + 1) }
{
    if target.0 == pointer.0 {
        return m;
    }
    out[m] = pointer.0;
    m + 1
}

// The pointers that turn, in order; how many.
fn list_released(pointers: &[u32], targets: &[u32], out: &mut [u32]) -> usize
    requires { (length pointers.now ≡ length targets.now) × (length pointers.now ≤ length out.old) }
    ensures { (take result out.new ≡ released_of pointers.now targets.now) × (result ≤ length pointers.now) }
{
    let mut m = 0;
    for (word, target) in pointers.iter().zip(targets) {
        m = keep_pointer(Pointer(*word), Pointer(*target), out, m);
    }
    m
}

// The previous version's pointers turn; those that did are listed.
pub fn turn_pointers(
    pointers: &mut [u32],
    image: &[u8],
    pool: &[u8],
    records: &[u32],
    targets: &mut [u32],
    out: &mut [u32],
    m: Measures,
) -> usize
    requires { (length image.now ≤ 65536) × Stored (measures_of m) pool.now records.now × (length targets.old ≡ length pointers.old) × (length pointers.old ≤ length out.old) × ((b : ℕ) → b < length pointers.old → WordFits m.blocks (length records.now) (get_or pointers.old b 0)) }
    ensures { (pointers.new ≡ map pointer_word (turn with_blanks (storage_in (measures_of m) pool.now records.now) (image_blocks m.bytes image.now) (map word_to_pointer pointers.old))) × (take result out.new ≡ map pointer_word (turning with_blanks (storage_in (measures_of m) pool.now records.now) (image_blocks m.bytes image.now) (map word_to_pointer pointers.old))) × (result ≤ length pointers.old) }
{
    find_targets(pointers, image, pool, records, targets, m);
    let r = list_released(pointers, targets, out);
    pointers.copy_from_slice(targets);
    r
}
