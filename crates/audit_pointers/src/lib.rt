// Pointers: where each leads, and where the tracing of a block ends.
#![tactic(auto)]

ghost use Rattle.std.specs.Prelude.{true, false, not, ◌≡◌, [], map, ℕ, ◌+◌, ◌*◌, ◌^◌, ◌≤◌, ◌<◌, length, get_or};
ghost use Rattle.lists.specs.Decides.{Decides};
ghost use Rattle.model.specs.State.{null_pointer, null_position, Storage};
ghost use Rattle.model.specs.Records.{is_held, cell_of};
ghost use Rattle.model.specs.Table.{word_to_pointer, records_in, version_in, versions_in};
ghost use Rattle.model.specs.Trace.{end_of};
ghost use Rattle.model.specs.Sound.{is_null};
ghost use Rattle.audit_counts.specs.Counters.{bumped, counts_after};
ghost use Rattle.audit_pointers.specs.Sound.{PointerSound, PointersSound};

use numbers::{Block, Cell, Pointer, RecordNumber};

// Whether a position of a record, of n, is held.
fn held_at(records: &[u32], k: RecordNumber, i: usize, n: usize) -> bool
    requires { n ≤ 16 }
    ensures { result ≡ is_held (get_or (get_or (records_in n records.now) k.0 []) i null_position) }
{
    let at = k.word(n);
    at + numbers::row_words(n) <= records.len() && i < n && audit_words::bit(records[at], i) == 1
}

// The cell of a position of a record, of n; 0 if it is not held.
pub fn cell_at(records: &[u32], k: RecordNumber, i: usize, n: usize) -> Cell
    requires { n ≤ 16 }
    ensures { result.0 ≡ cell_of (get_or (get_or (records_in n records.now) k.0 []) i null_position) }
{
    let at = k.word(n);
    if records.len() < at + numbers::row_words(n)
        || n <= i
        || audit_words::bit(records[at], i) != 1
    {
        return Cell(0);
    }
    Cell(records[at + 3 + i])
}

// Whether a block is there and its pointer not null, by a version's pointer words.
fn not_null(words: &[u32], b: Block) -> bool
    ensures { result ≡ not (is_null (get_or (map word_to_pointer words.now) b.0 null_pointer)) }
{
    let at = b.0 as usize;
    if words.len() <= at {
        return false;
    }
    let kind = words[at] / 0x100_0000;
    kind != 0 && kind <= 3
}

// Whether a word is that of a pointer that leads to a held position, or to a block of the next newer version that is not null; whatever the cells.
// It is counted. The kinds that stand in most versions are tested first.
fn pointer_sound(records: &[u32], newer: &[u32], w: u32, counts: &mut [u32], n: usize) -> bool
    requires { (n ≤ 16) × ((k : ℕ) → get_or counts.old k 0 + 1 < 2 ^ 32) }
    ensures { ((storage : Storage) → storage.records ≡ records_in n records.now → Decides result (PointerSound storage newer.now w)) × (result ≡ true → counts.new ≡ bumped w counts.old) }
{
    let kind = w / 0x100_0000;
    let low = w % 0x100_0000;
    match kind {
        2 => not_null(newer, Block(low)),
        1 => {
            audit_counts::bump(counts, w);
            held_at(records, RecordNumber(low / 16), (low % 16) as usize, n)
        }
        _ => w == Pointer::null().0 || w == Pointer::blank().0,
    }
}

// Whether each of some words is that of such a pointer. They are counted on the way, so that one pass serves for all.
pub fn pointers_sound(
    records: &[u32],
    newer: &[u32],
    words: &[u32],
    counts: &mut [u32],
    n: usize,
) -> bool
    requires { (n ≤ 16) × ((k : ℕ) → get_or counts.old k 0 + length words.now < 2 ^ 32) }
    ensures { ((storage : Storage) → storage.records ≡ records_in n records.now → Decides result (PointersSound storage newer.now words.now)) × (result ≡ true → counts.new ≡ counts_after words.now counts.old) }
{
    for &w in words {
        if !pointer_sound(records, newer, w, counts, n) {
            return false;
        }
    }
    true
}

// How many pointers a slot has.
pub fn pointer_count(slot: &[u32], blocks: usize, bytes: usize) -> usize
    requires { (blocks ≤ 1024) × (length slot.now ≡ 3 + blocks) × (0 < bytes) × (bytes ≤ 512) }
    ensures { (result ≡ length (version_in bytes slot.now).pointers) × (result ≤ blocks) }
{
    let length = slot[1] as usize;
    numbers::parts_for(bytes, length).min(blocks)
}

// The word of a slot's pointer; 0 past the last. A block is there if it begins within the length, which takes no division.
fn word_at(slot: &[u32], blocks: usize, b: Block, bytes: usize) -> u32
    requires { (blocks ≤ 1024) × (length slot.now ≡ 3 + blocks) × (0 < bytes) × (bytes ≤ 512) }
    ensures { word_to_pointer result ≡ get_or (version_in bytes slot.now).pointers b.0 null_pointer }
{
    let at = b.0 as usize;
    if blocks <= at || slot[1] as usize <= b.byte(bytes) {
        return 0;
    }
    slot[3 + at]
}

// The pointer word at which the tracing of a block ends: a block of the first of some slots, of which the others are newer.
pub fn end_of(slots: &[u32], blocks: usize, count: usize, block: Block, bytes: usize) -> u32
    requires { (blocks ≤ 1024) × (count ≤ 64) × (count * (3 + blocks) ≤ length slots.now) × (0 < bytes) × (bytes ≤ 512) }
    ensures { word_to_pointer result ≡ end_of (versions_in bytes blocks count slots.now) block.0 }
{
    let mut b = block.0;
    for i in 0..count {
        let at = i * (3 + blocks);
        let end = at + (3 + blocks);
        let w = word_at(&slots[at..end], blocks, Block(b), bytes);
        if w / 0x100_0000 != 2 {
            return w;
        }
        b = w % 0x100_0000;
    }
    0
}
