// The last block of a version, as traced.
#![tactic(auto)]

ghost use Rattle.std.specs.Prelude.{true, ◌≡◌, ◌+◌, ◌*◌, ◌-◌, ◌≤◌, ◌<◌, length, take, drop};
ghost use Rattle.lists.specs.Lists.{all_zero};
ghost use Rattle.model.specs.Table.{word_to_pointer, storage_in, version_in, versions_in};
ghost use Rattle.model.specs.Trace.{block_at};
ghost use Rattle.model.specs.Sound.{ends_zero};
ghost use Rattle.laws.specs.Ranges.{Measured};
ghost use Rattle.numbers.specs.Measures.{measures_of};

use numbers::{Block, Measures, RecordNumber};

// Whether the block at a pointer that is not indirect is zero from a byte on. A blank one is from its end on only.
fn block_zero(pool: &[u8], records: &[u32], w: u32, from: usize, m: Measures) -> bool
    requires { Measured (measures_of m) }
    ensures { result ≡ all_zero (drop from (block_at m.bytes (storage_in (measures_of m) pool.now records.now) (word_to_pointer w))) }
{
    let kind = w / 0x100_0000;
    match kind {
        3 => m.bytes <= from,
        1 => {
            let low = w % 0x100_0000;
            let cell = audit_pointers::cell_at(
                records,
                RecordNumber(low / 16),
                (low % 16) as usize,
                m.blocks,
            );
            let at = cell.byte(m.bytes);
            let end = at + m.bytes;
            pool.len() < end || m.bytes <= from || blocks::all_zero(&pool[at + from..end])
        }
        _ => true,
    }
}

// Whether the last block of the first of some slots' versions, as traced, is zero after the version's length.
pub fn padding_zero(
    pool: &[u8],
    records: &[u32],
    slots: &[u32],
    blocks: usize,
    count: usize,
    m: Measures,
) -> bool
    requires { Measured (measures_of m) × (0 < count) × (blocks ≤ 1024) × (count ≤ 64) × (count * (3 + blocks) ≤ length slots.now) }
    ensures { result ≡ ends_zero m.bytes (storage_in (measures_of m) pool.now records.now) (version_in m.bytes (take (3 + blocks) slots.now)) (versions_in m.bytes blocks (count - 1) (drop (3 + blocks) slots.now)) }
{
    let width = 3 + blocks;
    let count_of_first = audit_pointers::pointer_count(&slots[0..width], blocks, m.bytes);
    let last = count_of_first.saturating_sub(1);
    let block = Block(last as u32);
    let length = slots[1] as usize;
    let from = length.saturating_sub(block.byte(m.bytes));
    let w = audit_pointers::end_of(slots, blocks, count, block, m.bytes);
    block_zero(pool, records, w, from, m)
}
