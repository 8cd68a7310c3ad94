// The refusals of a chain, which come first: 1, 10 and 3. And of a chain that is not refused: where a store's parts lie, and the cells of the others.
#![tactic(auto)]

ghost use Rattle.std.specs.Prelude.{◌≡◌, cond, [], ◌≤◌, ◌<◌, length, eqb, IfOk};
ghost use Rattle.lists.specs.Lists.{counted, every, total};
ghost use Rattle.lists.specs.Decides.{Decides};
ghost use Rattle.chain.specs.Chain.{chain_of, store_count, pool_at, table_at, is_chain, is_store_at, chain_refusal};
ghost use Rattle.chain.specs.Limit.{occupied, other_cells};
ghost use Rattle.refusals.specs.Refusals.{refusal_of};
ghost use Rattle.chain_check.specs.Places.{Lengths, SoundChain, Inside, Lies};

use refusals::Refusal;

// Where a store's pool (from, end) and its table (at, stop) lie in the chain's buffers.
#[derive(Clone, Copy, Debug, PartialEq, Eq)]
pub struct Place {
    pub from: usize,
    pub end: usize,
    pub at: usize,
    pub stop: usize,
}

// One to eight stores, each with a pool and a table.
fn is_chain(pool_lengths: &[u32], table_lengths: &[u32]) -> bool
    ensures { result ≡ is_chain (chain_of [] [] pool_lengths.now table_lengths.now) }
{
    let stores = pool_lengths.len();
    if stores < 1 {
        return false;
    }
    if stores > 8 {
        return false;
    }
    table_lengths.len() == stores
}

// Whether the lengths add up to the bytes and the words.
fn add_up(pools: &[u8], tables: &[u32], pool_lengths: &[u32], table_lengths: &[u32]) -> bool
    requires { (length pool_lengths.now ≤ 8) × (length table_lengths.now ≤ 8) }
    ensures { Decides result ((total (λ n. n) pool_lengths.now ≡ length pools.now) × (total (λ n. n) table_lengths.now ≡ length tables.now)) }
{
    if lengths::sum_to(pool_lengths, pool_lengths.len()) != pools.len() {
        return false;
    }
    lengths::sum_to(table_lengths, table_lengths.len()) == tables.len()
}

fn place_of(
    pools: &[u8],
    tables: &[u32],
    pool_lengths: &[u32],
    table_lengths: &[u32],
    store: usize,
) -> Place
    requires { Lengths (chain_of pools.now tables.now pool_lengths.now table_lengths.now) × (store < length pool_lengths.now) }
    ensures { Inside (chain_of pools.now tables.now pool_lengths.now table_lengths.now) result × Lies (chain_of pools.now tables.now pool_lengths.now table_lengths.now) store result }
{
    let from = lengths::sum_to(pool_lengths, store);
    let end = lengths::sum_to(pool_lengths, store + 1);
    let at = lengths::sum_to(table_lengths, store);
    let stop = lengths::sum_to(table_lengths, store + 1);
    Place {
        from,
        end,
        at,
        stop,
    }
}

fn store_sound(
    pools: &[u8],
    tables: &[u32],
    pool_lengths: &[u32],
    table_lengths: &[u32],
    store: usize,
) -> bool
    requires { Lengths (chain_of pools.now tables.now pool_lengths.now table_lengths.now) × (store < length pool_lengths.now) }
    ensures { result ≡ is_store_at (chain_of pools.now tables.now pool_lengths.now table_lengths.now) store }
{
    let p = place_of(pools, tables, pool_lengths, table_lengths, store);
    audit::sound(&pools[p.from..p.end], &tables[p.at..p.stop])
}

// Whether every store is sound.
fn stores_sound(pools: &[u8], tables: &[u32], pool_lengths: &[u32], table_lengths: &[u32]) -> bool
    requires { Lengths (chain_of pools.now tables.now pool_lengths.now table_lengths.now) }
    ensures { result ≡ every (is_store_at (chain_of pools.now tables.now pool_lengths.now table_lengths.now)) (counted (λ i. i) 0 (length pool_lengths.now)) }
{
    for i in 0..pool_lengths.len() {
        if !store_sound(pools, tables, pool_lengths, table_lengths, i) {
            return false;
        }
    }
    true
}

// Of a call that names that store.
pub fn refusal(
    pools: &[u8],
    tables: &[u32],
    pool_lengths: &[u32],
    table_lengths: &[u32],
    store: u32,
) -> Result<(), Refusal>
    ensures { refusal_of result ≡ chain_refusal (chain_of pools.now tables.now pool_lengths.now table_lengths.now) store }
{
    if !is_chain(pool_lengths, table_lengths) {
        return Err(Refusal::Capacity);
    }
    if !add_up(pools, tables, pool_lengths, table_lengths) {
        return Err(Refusal::Unsound);
    }
    if !stores_sound(pools, tables, pool_lengths, table_lengths) {
        return Err(Refusal::Unsound);
    }
    if store as usize >= pool_lengths.len() {
        return Err(Refusal::NoSuchTill);
    }
    Ok(())
}

// The refusal, or where the store's parts lie.
pub fn find_store(
    pools: &[u8],
    tables: &[u32],
    pool_lengths: &[u32],
    table_lengths: &[u32],
    store: u32,
) -> Result<Place, Refusal>
    ensures refused { refusal_of result ≡ chain_refusal (chain_of pools.now tables.now pool_lengths.now table_lengths.now) store }
    ensures place { IfOk result (λ p. Inside (chain_of pools.now tables.now pool_lengths.now table_lengths.now) p × Lies (chain_of pools.now tables.now pool_lengths.now table_lengths.now) store p) }
{
    refusal(pools, tables, pool_lengths, table_lengths, store)?;
    Ok(place_of(pools, tables, pool_lengths, table_lengths, store as usize))
}

// The cells that a store occupies, or 0 for the store that is named.
fn cells_beside(
    pools: &[u8],
    tables: &[u32],
    pool_lengths: &[u32],
    table_lengths: &[u32],
    named: usize,
    store: usize,
) -> u32
    requires { SoundChain (chain_of pools.now tables.now pool_lengths.now table_lengths.now) × (store < length pool_lengths.now) }
    ensures { (result ≡ cond (eqb store named) 0 (occupied (pool_at (chain_of pools.now tables.now pool_lengths.now table_lengths.now) store) (table_at (chain_of pools.now tables.now pool_lengths.now table_lengths.now) store))) × (result ≤ 65536) }
{
    if store == named {
        return 0;
    }
    let p = place_of(pools, tables, pool_lengths, table_lengths, store);
    tally::occupied_cells(&pools[p.from..p.end], &tables[p.at..p.stop])
}

// The cells that the other stores occupy.
pub fn other_cells(
    pools: &[u8],
    tables: &[u32],
    pool_lengths: &[u32],
    table_lengths: &[u32],
    store: u32,
) -> u32
    requires { chain_refusal (chain_of pools.now tables.now pool_lengths.now table_lengths.now) store ≡ 0 }
    ensures { (result ≡ other_cells (chain_of pools.now tables.now pool_lengths.now table_lengths.now) store) × (result ≤ 524288) }
{
    let named = store as usize;
    let mut cells: u32 = 0;
    for j in 0..pool_lengths.len() {
        cells += cells_beside(pools, tables, pool_lengths, table_lengths, named, j);
    }
    cells
}
