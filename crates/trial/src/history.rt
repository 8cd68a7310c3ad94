// Long histories of drawn calls on one store.
use answers::TableLength;
use layout::Capacities;
use numbers::Cell;
use trial_draw::dice::Dice;
use trial_report::counts;

fn play(
    c: Capacities,
    seed: u64,
    count: u32,
    pool: &mut [u8],
    table: &mut [u32],
    images: &mut [u8],
    notes: &mut [u32],
    counts: &mut [u64],
) {
    let mut d = Dice { state: seed };
    for _ in 0..count {
        d = d.rolled();
        crate::turns::turn(c, d, pool, table, images, notes, counts);
    }
}

// Laid out over what an earlier history left.
fn open_and_play(
    c: Capacities,
    seed: u64,
    count: u32,
    pool: &mut [u8],
    table: &mut [u32],
    images: &mut [u8],
    notes: &mut [u32],
    counts: &mut [u64],
) {
    trial_calls::lay_out(c, pool, table, counts, 0);
    crate::checks::all(c, pool, table, images, notes, counts);
    play(c, seed, count, pool, table, images, notes, counts);
}

// Beside a new keeper.
fn on_store(
    c: Capacities,
    seed: u64,
    count: u32,
    pool: &mut [u8],
    table: &mut [u32],
    counts: &mut [u64],
) {
    let mut images = [0u8; trial_keeper::IMAGES];
    let mut notes = [0u32; trial_keeper::NOTES];
    trial_calls::table_length(c, counts, 0);
    open_and_play(c, seed, count, pool, table, &mut images, &mut notes, counts);
}

// On the first bytes and words of the buffers, as many as the capacities need. Buffers that are too short show as a wrong answer.
pub fn history(
    c: Capacities,
    seed: u64,
    count: u32,
    pool: &mut [u8],
    table: &mut [u32],
    counts: &mut [u64],
) {
    let bytes = Cell(c.cells).byte(trial_keeper::block_bytes(c));
    let words = TableLength::from(store::table_length(c)).words as usize;
    let b = trial_choice::at_most(bytes, pool.len());
    let w = trial_choice::at_most(words, table.len());
    counts::expect(counts, b == bytes);
    counts::expect(counts, w == words);
    on_store(c, seed, count, &mut pool[0..b], &mut table[0..w], counts);
}
