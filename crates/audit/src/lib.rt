// The soundness check, refusal 10: whether a pool and a table are a sound store. Each word and each byte is read a bounded number of times.
#![tactic(auto)]

ghost use Rattle.std.specs.Prelude.{false, ◌≡◌, ℕ, ◌+◌, ◌*◌, ◌≤◌, ◌<◌, length, take, drop};
ghost use Rattle.lists.specs.Lists.{is_some};
ghost use Rattle.lists.specs.Decides.{Decides};
ghost use Rattle.model.specs.Measures.{till_words, record_words};
ghost use Rattle.model.specs.Table.{storage_in};
ghost use Rattle.model.specs.Sound.{store_of};
ghost use Rattle.laws.specs.Ranges.{Measured};
ghost use Rattle.numbers.specs.Measures.{measures_of};
ghost use Rattle.audit_counts.specs.Counters.{CountsExact};
ghost use Rattle.audit_tills.specs.Sound.{tills_pointers, TillSound};
ghost use Rattle.audit.specs.Sound.{Sized, Body, TableBody};

use numbers::Measures;

// Whether the tills' words are in order, and the records' counts those of their direct pointers.
fn counted_sound(
    pool: &[u8],
    tills: &[u32],
    records: &[u32],
    count: usize,
    versions: usize,
    blocks: usize,
    m: Measures,
) -> bool
    requires { Measured (measures_of m) × (count ≤ 16) × (versions ≤ 64) × (blocks ≤ 1024) × (length tills.now ≡ count * till_words versions blocks) × (length tills.now ≤ 2000000) × (length records.now ≤ 4096 * record_words m.blocks) }
    ensures { Decides result (((t : ℕ) → t < count → TillSound m.bytes (storage_in (measures_of m) pool.now records.now) versions blocks (take (till_words versions blocks) (drop (t * till_words versions blocks) tills.now))) × CountsExact m.blocks (tills_pointers m.bytes versions blocks count tills.now) records.now) }
{
    let mut counts = [0u32; 65536];
    audit_tills::tills_sound(
        pool,
        records,
        tills,
        count,
        versions,
        blocks,
        &mut counts,
        m,
    ) && audit_counts::records_counts(records, &counts, m.blocks)
}

// Whether the tills' and the records' words and the pool's bytes are those of a sound store.
fn parts_sound(
    pool: &[u8],
    tills: &[u32],
    records: &[u32],
    count: usize,
    versions: usize,
    blocks: usize,
    m: Measures,
) -> bool
    requires { Measured (measures_of m) × (count ≤ 16) × (versions ≤ 64) × (blocks ≤ 1024) × (length tills.now ≡ count * till_words versions blocks) × (length tills.now ≤ 2000000) × (length records.now ≤ 4096 * record_words m.blocks) × (length pool.now ≤ 32768 * m.bytes) }
    ensures { Decides result (Body (measures_of m) pool.now tills.now records.now count versions blocks) }
{
    audit_words::records_form(records, m.blocks)
        && audit_cells::cells_sound(pool, records, m)
        && counted_sound(pool, tills, records, count, versions, blocks, m)
}

// The same, of a table whose capacities are in range, and of buffers of their lengths.
fn body_sound(pool: &[u8], table: &[u32], m: Measures) -> bool
    requires { Measured (measures_of m) × Sized (measures_of m) pool.now table.now }
    ensures { Decides result (TableBody (measures_of m) pool.now table.now) }
{
    let tills = table[0] as usize;
    let versions = table[1] as usize;
    let blocks = table[2] as usize;
    let base = layout::records_at(table);
    parts_sound(
        pool,
        &table[layout::HEADER_WORDS..base],
        &table[base..],
        tills,
        versions,
        blocks,
        m,
    )
}

// Whether a pool and a table are a sound store.
pub fn sound(pool: &[u8], table: &[u32]) -> bool
    ensures { result ≡ is_some (store_of pool.now table.now) }
{
    audit_header::header(pool, table) && body_sound(pool, table, layout::measures_in(table))
}
