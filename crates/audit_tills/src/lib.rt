// Tills: their versions' numbers, words, pointers and ends. The direct pointers are counted on the way.
#![tactic(auto)]

ghost use Rattle.std.specs.Prelude.{true, false, ◌≡◌, ℕ, ◌+◌, ◌*◌, ◌-◌, ◌^◌, ◌≤◌, ◌<◌, length, get_or, take, drop};
ghost use Rattle.lists.specs.Lists.{rises};
ghost use Rattle.lists.specs.Decides.{Decides};
ghost use Rattle.model.specs.Measures.{till_words};
ghost use Rattle.model.specs.State.{Storage};
ghost use Rattle.model.specs.Table.{records_in, storage_in};
ghost use Rattle.laws.specs.Ranges.{Measured};
ghost use Rattle.numbers.specs.Measures.{measures_of};
ghost use Rattle.audit_counts.specs.Counters.{counts_after};
ghost use Rattle.audit_tills.specs.Sound.{numbers_in, pointer_words, slots_pointers, till_pointers, tills_pointers, SlotPointersSound, SlotSound, TillSound};

use numbers::Measures;

// Whether the numbers of some slots rise: the first is at least 1, each other above the one before it, and none above the last given.
fn numbers_rise(slots: &[u32], blocks: usize, count: usize, last: u32) -> bool
    requires { (blocks ≤ 1024) × (count ≤ 64) × (last ≤ 65535) × (count * (3 + blocks) ≤ length slots.now) }
    ensures { result ≡ rises 0 last (numbers_in blocks count slots.now) }
{
    let mut least: u32 = 1;
    for i in 0..count {
        let number = slots[i * (3 + blocks)];
        if number < least || last < number {
            return false;
        }
        least = number + 1;
    }
    true
}

// Whether the pointer words of the first of some slots, of which the others are newer, are those of pointers that resolve; whatever the cells. They are counted.
fn slot_pointers_sound(
    records: &[u32],
    slots: &[u32],
    blocks: usize,
    count: usize,
    counts: &mut [u32],
    m: Measures,
) -> bool
    requires { Measured (measures_of m) × (0 < count) × (blocks ≤ 1024) × (count ≤ 64) × (count * (3 + blocks) ≤ length slots.now) × ((k : ℕ) → get_or counts.old k 0 + blocks < 2 ^ 32) }
    ensures { ((storage : Storage) → storage.records ≡ records_in m.blocks records.now → Decides result (SlotPointersSound m.bytes storage blocks count slots.now)) × (result ≡ true → counts.new ≡ counts_after (pointer_words m.bytes (take (3 + blocks) slots.now)) counts.old) }
{
    let width = 3 + blocks;
    let mine = 3 + audit_pointers::pointer_count(&slots[0..width], blocks, m.bytes);
    if count < 2 {
        return audit_pointers::pointers_sound(
            records,
            &slots[0..0],
            &slots[3..mine],
            counts,
            m.blocks,
        );
    }
    let twice = width + width;
    let start = width + 3;
    let end = start + audit_pointers::pointer_count(&slots[width..twice], blocks, m.bytes);
    audit_pointers::pointers_sound(
        records,
        &slots[start..end],
        &slots[3..mine],
        counts,
        m.blocks,
    )
}

// Whether the first of some slots has the words of a sound version, but for its number.
fn slot_sound(
    pool: &[u8],
    records: &[u32],
    slots: &[u32],
    blocks: usize,
    count: usize,
    counts: &mut [u32],
    m: Measures,
) -> bool
    requires { Measured (measures_of m) × (0 < count) × (blocks ≤ 1024) × (count ≤ 64) × (count * (3 + blocks) ≤ length slots.now) × ((k : ℕ) → get_or counts.old k 0 + blocks < 2 ^ 32) }
    ensures { Decides result (SlotSound m.bytes (storage_in (measures_of m) pool.now records.now) blocks count slots.now) × (result ≡ true → counts.new ≡ counts_after (pointer_words m.bytes (take (3 + blocks) slots.now)) counts.old) }
{
    let width = 3 + blocks;
    if !audit_words::slot_frame(&slots[0..width], blocks, m.bytes) {
        return false;
    }
    if !slot_pointers_sound(records, slots, blocks, count, counts, m) {
        return false;
    }
    audit_padding::padding_zero(pool, records, slots, blocks, count, m)
}

// Whether all slots have.
fn slots_sound(
    pool: &[u8],
    records: &[u32],
    slots: &[u32],
    blocks: usize,
    count: usize,
    counts: &mut [u32],
    m: Measures,
) -> bool
    requires { Measured (measures_of m) × (blocks ≤ 1024) × (count ≤ 64) × (count * (3 + blocks) ≤ length slots.now) × ((k : ℕ) → get_or counts.old k 0 + count * (3 + blocks) < 2 ^ 32) }
    ensures { Decides result ((i : ℕ) → i < count → SlotSound m.bytes (storage_in (measures_of m) pool.now records.now) blocks (count - i) (drop (i * (3 + blocks)) slots.now)) × (result ≡ true → counts.new ≡ counts_after (slots_pointers m.bytes blocks count slots.now) counts.old) }
{
    for i in 0..count {
        let at = i * (3 + blocks);
        if !slot_sound(pool, records, &slots[at..], blocks, count - i, counts, m) {
            return false;
        }
    }
    true
}

// Whether a till's words are those of a sound till.
fn till_sound(
    pool: &[u8],
    records: &[u32],
    till: &[u32],
    versions: usize,
    blocks: usize,
    counts: &mut [u32],
    m: Measures,
) -> bool
    requires { Measured (measures_of m) × (versions ≤ 64) × (blocks ≤ 1024) × (length till.now ≡ till_words versions blocks) × ((k : ℕ) → get_or counts.old k 0 + length till.now < 2 ^ 32) }
    ensures { Decides result (TillSound m.bytes (storage_in (measures_of m) pool.now records.now) versions blocks till.now) × (result ≡ true → counts.new ≡ counts_after (till_pointers m.bytes blocks till.now) counts.old) }
{
    let last = till[0];
    let count = till[1] as usize;
    // Seven users have four rights each.
    if versions < count || 65535 < last || 1u32 << 28 <= till[2] || till[3] != 0 {
        return false;
    }
    if !numbers_rise(&till[4..], blocks, count, last) {
        return false;
    }
    if !slots_sound(pool, records, &till[4..], blocks, count, counts, m) {
        return false;
    }
    let end = 4 + count * (3 + blocks);
    audit_words::zeros(&till[end..])
}

// Whether the words of all tills are.
pub fn tills_sound(
    pool: &[u8],
    records: &[u32],
    tills: &[u32],
    count: usize,
    versions: usize,
    blocks: usize,
    counts: &mut [u32],
    m: Measures,
) -> bool
    requires { Measured (measures_of m) × (count ≤ 16) × (versions ≤ 64) × (blocks ≤ 1024) × (length tills.now ≡ count * till_words versions blocks) × ((k : ℕ) → get_or counts.old k 0 + length tills.now < 2 ^ 32) }
    ensures { Decides result ((t : ℕ) → t < count → TillSound m.bytes (storage_in (measures_of m) pool.now records.now) versions blocks (take (till_words versions blocks) (drop (t * till_words versions blocks) tills.now))) × (result ≡ true → counts.new ≡ counts_after (tills_pointers m.bytes versions blocks count tills.now) counts.old) }
{
    let width = 4 + versions * (3 + blocks);
    for t in 0..count {
        let at = t * width;
        let end = at + width;
        if !till_sound(pool, records, &tills[at..end], versions, blocks, counts, m) {
            return false;
        }
    }
    true
}
