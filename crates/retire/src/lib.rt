// Retiring a version: its older neighbour takes over the pointers that it named, counts rise and fall, step 3 is done, and its slot goes.
#![tactic(auto)]

ghost use Rattle.std.specs.Prelude.{◌≡◌, List, ◌∷◌, ◌++◌, Ok, map, ℕ, ◌+◌, ◌-◌, ◌≤◌, ◌<◌, length, get_or, set, take, drop};
ghost use Rattle.model.specs.Measures.{Shape, records_at};
ghost use Rattle.model.specs.State.{Pointer, Version, State};
ghost use Rattle.model.specs.Table.{pointer_word, word_to_pointer, records_in, shape_of, state_to_words};
ghost use Rattle.model.specs.Calls.{till_of, newest_pointers, with_newest_pointers, retire_of};
ghost use Rattle.laws.specs.Stores.{Sound};
ghost use Rattle.numbers.specs.Measures.{measures_of};
ghost use Rattle.storage.specs.Fits.{WithinRecords, NamesHeld};
ghost use Rattle.slots.specs.Slots.{HasSlot};
ghost use Rattle.tills.specs.Answers.{versions_held};
ghost use Rattle.retire.specs.Answers.{version_at, HoldsVersion, Copied, taken_word, take_over_word, exchanged, state_without, EncodesState, TillPlace, retire_result, retired_at};

use numbers::Measures;
use refusals::Refusal;

// The pointer words of the version at place j are copied; its length.
fn copy_version(
    pool: &[u8],
    table: &[u32],
    till: u32,
    at: usize,
    j: usize,
    pointers: &mut [u32],
    bytes: usize,
) -> u32
    requires { HoldsVersion pool.now table.now till at j × (length pointers.old ≡ 1024) × (bytes ≡ (shape_of table.now).measures.block_bytes) }
    ensures { Copied pool.now table.now till j result pointers.new }
{
    let width = 3 + table[2] as usize;
    let slot = at + (4 + j * width);
    let length = table[slot + 1];
    let count = numbers::parts_for(bytes, length as usize);
    words::copy_in(&table[slot + 3..slot + 3 + count], pointers);
    length
}

// Those of its older neighbour; how many. The oldest version has none.
fn copy_older(
    pool: &[u8],
    table: &[u32],
    till: u32,
    at: usize,
    j: usize,
    older: &mut [u32],
    bytes: usize,
) -> usize
    requires { HoldsVersion pool.now table.now till at j × (length older.old ≡ 1024) × (bytes ≡ (shape_of table.now).measures.block_bytes) }
    ensures { (take result older.new ≡ map pointer_word (newest_pointers (take j (versions_held pool.now table.now till)))) × (result ≤ 1024) }
{
    if j == 0 {
        return 0;
    }
    let length = copy_version(pool, table, till, at, j - 1, older, bytes);
    numbers::parts_for(bytes, length as usize)
}

// The pointer that an indirect one names, among a version's; null for any other.
fn taken_pointer(pointer: numbers::Pointer, gone: &[u32]) -> numbers::Pointer
    ensures { result.0 ≡ taken_word gone.now pointer.0 }
{
    if !pointer.is_indirect() {
        return numbers::Pointer::null();
    }
    let named = pointer.block();
    let n = named.0 as usize;
    match gone.get(n) {
        Some(word) => numbers::Pointer(*word),
        None => numbers::Pointer::null(),
    }
}

// A pointer that has taken over what it named.
fn pointer_after(pointer: numbers::Pointer, taken: numbers::Pointer) -> numbers::Pointer
    ensures { (gone : List ℕ) → taken.0 ≡ taken_word gone pointer.0 → result.0 ≡ take_over_word gone pointer.0 }
{
    if pointer.is_indirect() {
        taken
    } else {
        pointer
    }
}

// The older neighbour's pointers take over, and what each has taken is listed.
fn take_over(older: &mut [u32], gone: &[u32], taken: &mut [u32])
    requires { length taken.old ≡ length older.old }
    ensures { (older.new ≡ map (take_over_word gone.now) older.old) × (taken.new ≡ map (taken_word gone.now) older.old) }
{
    // Kept: tried and the proof did not close: after a zip of two iter_mut no proof knows what was written, so `taken` goes by i.
    for (i, word) in older.iter_mut().enumerate() {
        let pointer = numbers::Pointer(*word);
        let named = taken_pointer(pointer, gone);
        let after = pointer_after(pointer, named);
        taken[i] = named.0;
        *word = after.0;
    }
}

// Pointers taken over claim their blocks, before the others let go of theirs.
fn exchange(pool: &mut [u8], table: &mut [u32], taken: &[u32], gone: &[u32], m: Measures)
    requires sound { Sound pool.old table.old × (measures_of m ≡ (shape_of table.old).measures) × (length taken.now ≤ 1024) }
    requires by_index { (i : ℕ) → i < length taken.now → WithinRecords (shape_of table.old).measures.segment_blocks (length (drop (records_at (shape_of table.old).capacities) table.old)) (word_to_pointer (get_or taken.now i 0)) × NamesHeld (records_in (shape_of table.old).measures.segment_blocks (drop (records_at (shape_of table.old).capacities) table.old)) (word_to_pointer (get_or taken.now i 0)) }
    requires by_index_2 { (i : ℕ) → i < length gone.now → WithinRecords (shape_of table.old).measures.segment_blocks (length (drop (records_at (shape_of table.old).capacities) table.old)) (word_to_pointer (get_or gone.now i 0)) }
    ensures { EncodesState (shape_of table.old) (exchanged pool.old table.old (map word_to_pointer taken.now) (map word_to_pointer gone.now)) pool.new table.new }
{
    let records = layout::records_at(table);
    sweep::exchange(pool, &mut table[records..], taken, gone, m);
}

// The till loses the version at place j, and its older neighbour has other pointers.
fn close_up(table: &mut [u32], at: usize, size: usize, blocks: usize, j: usize, pointers: &[u32])
    requires { (at + size ≤ length table.old) × HasSlot blocks j (take size (drop at table.old)) × (length pointers.now ≤ blocks) }
    ensures { (s : Shape) (st : State) (t : ℕ) (older : List Version) (u : Version) (newer : List Version) (ps : List Pointer) → TillPlace s st t at size blocks → (till_of st t).versions ≡ older ++ (u ∷ newer) → length older ≡ j → table.old ≡ state_to_words s st → pointers.now ≡ map pointer_word ps → length ps ≡ length (newest_pointers older) → table.new ≡ state_to_words s (record { tills = set st.tills t (record { last = (till_of st t).last; rights = (till_of st t).rights; versions = with_newest_pointers older ps ++ newer }); storage = st.storage }) }
{
    slots::close_up(&mut table[at..at + size], blocks, j, pointers);
}

// The version at place j goes: its pointers' words, and its older neighbour's, are given.
fn retire_slot(
    pool: &mut [u8],
    table: &mut [u32],
    till: u32,
    at: usize,
    j: usize,
    older: &mut [u32],
    gone: &[u32],
    taken: &mut [u32],
    m: Measures,
)
    requires holds_version { HoldsVersion pool.old table.old till at j × (measures_of m ≡ (shape_of table.old).measures) × (length taken.old ≡ length older.old) }
    requires gone_value { (gone.now ≡ map pointer_word (version_at pool.old table.old till j).pointers) × (older.old ≡ map pointer_word (newest_pointers (take j (versions_held pool.old table.old till)))) }
    ensures { EncodesState (shape_of table.old) (state_without pool.old table.old till j) pool.new table.new }
{
    let blocks = table[2] as usize;
    let size = layout::till_words(table);
    take_over(older, gone, taken);
    exchange(pool, table, taken, gone, m);
    close_up(table, at, size, blocks, j, older);
}

// The same, with room for the pointers' words; its length.
fn retire_with(
    pool: &mut [u8],
    table: &mut [u32],
    till: u32,
    at: usize,
    j: usize,
    gone: &mut [u32],
    older: &mut [u32],
    taken: &mut [u32],
    m: Measures,
) -> u32
    requires { HoldsVersion pool.old table.old till at j × (length gone.old ≡ 1024) × (length older.old ≡ 1024) × (length taken.old ≡ 1024) × (measures_of m ≡ (shape_of table.old).measures) }
    ensures { retire_result (Ok result) pool.new table.new ≡ retired_at pool.old table.old till j }
{
    let length = copy_version(pool, table, till, at, j, gone, m.bytes);
    let count = numbers::parts_for(m.bytes, length as usize);
    let n = copy_older(pool, table, till, at, j, older, m.bytes);
    retire_slot(
        pool,
        table,
        till,
        at,
        j,
        &mut older[..n],
        &gone[..count],
        &mut taken[..n],
        m,
    );
    length
}

fn retire_held(
    pool: &mut [u8],
    table: &mut [u32],
    till: u32,
    at: usize,
    j: usize,
    m: Measures,
) -> u32
    requires { HoldsVersion pool.old table.old till at j × (measures_of m ≡ (shape_of table.old).measures) }
    ensures { retire_result (Ok result) pool.new table.new ≡ retired_at pool.old table.old till j }
{
    let mut gone = [0u32; 1024];
    let mut older = [0u32; 1024];
    let mut taken = [0u32; 1024];
    retire_with(
        pool, table, till, at, j, &mut gone, &mut older, &mut taken, m,
    )
}

#[tactic(auto, using(laws::proofs::Stores::header))]
pub fn retire_version(
    pool: &mut [u8],
    table: &mut [u32],
    till: u32,
    version: u32,
) -> Result<u32, Refusal>
    requires { Sound pool.old table.old }
    ensures { retire_result result pool.new table.new ≡ retire_of pool.old table.old till version }
{
    if table[0] <= till {
        return Err(Refusal::NoSuchTill);
    }
    let head = tills::till_head(pool, table, till);
    let place = tills::look_up(pool, table, till, head, version)?;
    let m = layout::measures_in(table);
    Ok(retire_held(pool, table, till, head.at, place, m))
}
