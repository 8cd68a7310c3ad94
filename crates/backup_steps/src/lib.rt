// Steps 1 to 3 of a backup on the pool and the records' words: placed, turned, let go and swept; and the limit of a chain, before anything is removed.
#![tactic(auto)]

ghost use Rattle.std.specs.Prelude.{◌≡◌, true, map, ◌+◌, ◌*◌, ◌≤◌, length, drop, replicate, take, ltb};
ghost use Rattle.lists.specs.Lists.{count, total};
ghost use Rattle.model.specs.Image.{image_blocks};
ghost use Rattle.model.specs.Measures.{record_words};
ghost use Rattle.model.specs.Runs.{free_cells};
ghost use Rattle.model.specs.Sweep.{claim, is_referenced};
ghost use Rattle.model.specs.Table.{cells_in, records_in, storage_in, word_to_pointer};
ghost use Rattle.numbers.specs.Measures.{measures_of};
ghost use Rattle.place.specs.All.{placed_in};
ghost use Rattle.place_undo.specs.Undo.{undo_upto};
ghost use Rattle.refusals.specs.Refusals.{refusal_of};
ghost use Rattle.storage.specs.Stored.{EncodesRecords, Encodes};
ghost use Rattle.backup_steps.specs.Limit.{is_count, beyond, limited, TakeBackPre, RemovePre, RemoveResult};
ghost use Rattle.backup_steps.specs.Steps.{TurnPre, TurnResult, StorePre, StoreResult};

use numbers::Measures;
use refusals::Refusal;

// The cells that the other stores of a chain occupy, and the most that all of them may.
#[derive(Clone, Copy, Debug, PartialEq, Eq)]
pub struct Limit {
    pub others: u32,
    pub most: u32,
}

impl Limit {
    // A store alone has no limit: no sum of cells is above it.
    pub fn none() -> Limit
        ensures { (result.others ≡ 0) × (result.most ≡ 4294967295) }
    {
        Limit {
            others: 0,
            most: 4294967295,
        }
    }

    // Whether so many cells, with the others', are too many.
    fn exceeded(self, cells: u32) -> bool
        requires { (self.others ≤ 524288) × (cells ≤ 65536) }
        ensures { result ≡ ltb self.most (self.others + cells) }
    {
        self.most < self.others + cells
    }
}

// How many positions of a record, of n, have a count.
fn row_left(row: &[u32], n: usize) -> u32
    requires { (n ≤ 16) × (length row.now ≡ record_words n) }
    ensures { result ≡ count is_count (drop (3 + n) row.now) }
{
    let mut left: u32 = 0;
    for &count in &row[3 + n..] {
        left += u32::from(count != 0);
    }
    left
}

// The same for all records: the cells that a sweep leaves.
fn cells_left(records: &[u32], n: usize) -> u32
    requires { (n ≤ 16) × EncodesRecords n records.now (records_in n records.now) × (length records.now ≤ 4096 * record_words n) }
    ensures { (result ≡ total (count is_referenced) (records_in n records.now)) × (result ≤ 65536) }
{
    let width = numbers::row_words(n);
    let rows = numbers::rows(records.len(), n);
    let mut left: u32 = 0;
    for k in 0..rows {
        let at = k * width;
        left += row_left(&records[at..at + width], n);
    }
    left
}

// Whether these are too many. Where no number of cells is, none is counted: a store alone.
fn too_many(records: &[u32], n: usize, limit: Limit) -> bool
    requires { (n ≤ 16) × EncodesRecords n records.now (records_in n records.now) × (length records.now ≤ 4096 * record_words n) × (limit.others ≤ 524288) }
    ensures { result ≡ ltb limit.most (limit.others + total (count is_referenced) (records_in n records.now)) }
{
    limit.exceeded(65536) && limit.exceeded(cells_left(records, n))
}

// The counts rise again, and the placings are undone.
fn take_back(
    pool: &mut [u8],
    records: &mut [u32],
    gone: &[u32],
    placed: &[u32],
    segments: usize,
    m: Measures,
)
    requires { TakeBackPre (measures_of m) pool.old records.old gone.now placed.now segments }
    ensures { Encodes (measures_of m) pool.new records.new (undo_upto (measures_of m) placed.now segments (claim (storage_in (measures_of m) pool.old records.old) (map word_to_pointer gone.now))) }
{
    sweep_counts::claim(records, gone, m.blocks);
    place_undo::undo_all(pool, records, placed, segments, m);
}

// The first `count` pointers of a list let go, and the storage is swept; or, beyond the limit, all is as before the placings. Letting go frees no cell,
// so the map of the free ones still serves.
fn remove_or_take_back(
    pool: &mut [u8],
    records: &mut [u32],
    free: &mut [bool],
    out: &[u32],
    count: usize,
    placed: &[u32],
    segments: usize,
    limit: Limit,
    m: Measures,
) -> Result<(), Refusal>
    requires remove_pre { RemovePre (measures_of m) pool.old records.old out.now count placed.now segments × (limit.others ≤ 524288) }
    requires free_value { free.old ≡ free_cells (storage_in (measures_of m) pool.old records.old) }
    ensures { let storage = storage_in (measures_of m) pool.old records.old in let gone = map word_to_pointer (take count out.now) in RemoveResult (beyond limit.others limit.most (measures_of m) storage gone) (measures_of m) storage gone (undo_upto (measures_of m) placed.now segments storage) (refusal_of result) pool.new records.new }
{
    sweep_counts::release(records, &out[..count], m.blocks);
    if too_many(records, m.blocks, limit) {
        take_back(pool, records, &out[..count], placed, segments, m);
        return Err(Refusal::OverLimit);
    }
    sweep::sweep_free(pool, records, free, m);
    Ok(())
}

// With room for the targets and for the pointers that turn.
fn turn_with(
    image: &[u8],
    pool: &mut [u8],
    records: &mut [u32],
    free: &mut [bool],
    prev: &mut [u32],
    targets: &mut [u32],
    out: &mut [u32],
    placed: &[u32],
    limit: Limit,
    m: Measures,
) -> Result<(), Refusal>
    requires turn_pre { TurnPre (measures_of m) image.now pool.old records.old prev.old placed.now × (length targets.old ≡ 1024) × (length out.old ≡ 1024) × (limit.others ≤ 524288) }
    requires free_value { free.old ≡ free_cells (storage_in (measures_of m) pool.old records.old) }
    ensures { TurnResult limit.others limit.most (measures_of m) image.now (storage_in (measures_of m) pool.old records.old) (map word_to_pointer prev.old) placed.now (refusal_of result) pool.new records.new prev.new }
{
    let n = prev.len();
    let count = turn::turn_pointers(prev, image, pool, records, &mut targets[..n], out, m);
    let segments = m.segments(image.len());
    remove_or_take_back(pool, records, free, out, count, placed, segments, limit, m)
}

// The previous version's pointers turn, those that did let go, and the storage is swept: refused if that would exceed the limit.
fn turn_and_sweep(
    image: &[u8],
    pool: &mut [u8],
    records: &mut [u32],
    free: &mut [bool],
    prev: &mut [u32],
    placed: &[u32],
    limit: Limit,
    m: Measures,
) -> Result<(), Refusal>
    requires turn_pre { TurnPre (measures_of m) image.now pool.old records.old prev.old placed.now × (limit.others ≤ 524288) }
    requires free_value { free.old ≡ free_cells (storage_in (measures_of m) pool.old records.old) }
    ensures { TurnResult limit.others limit.most (measures_of m) image.now (storage_in (measures_of m) pool.old records.old) (map word_to_pointer prev.old) placed.now (refusal_of result) pool.new records.new prev.new }
{
    let mut targets = [0u32; 1024];
    let mut out = [0u32; 1024];
    turn_with(
        image,
        pool,
        records,
        free,
        prev,
        &mut targets,
        &mut out,
        placed,
        limit,
        m,
    )
}

// With room for the record of each placing, and for one map of the cells: all are free at first, and the sweep has it as the placings leave it.
fn store_image_with(
    image: &[u8],
    pool: &mut [u8],
    records: &mut [u32],
    free: &mut [bool],
    placed: &mut [u32],
    words: &mut [u32],
    prev: &mut [u32],
    limit: Limit,
    m: Measures,
) -> Result<(), Refusal>
    requires store_pre { StorePre (measures_of m) image.now pool.old records.old words.old prev.old × (length placed.old ≡ 256) × (limit.others ≤ 524288) }
    requires free_value { free.old ≡ replicate (length (cells_in m.bytes pool.old)) true }
    ensures { StoreResult (measures_of m) image.now (map word_to_pointer prev.old) (limited limit.others limit.most (measures_of m) (image_blocks m.bytes image.now) (map word_to_pointer prev.old) (placed_in (measures_of m) image.now pool.old records.old)) (refusal_of result) pool.old records.old pool.new records.new words.new prev.new }
{
    place::place_all(image, pool, records, free, placed, words, m)?;
    turn_and_sweep(image, pool, records, free, prev, placed, limit, m)
}

// All three steps. A refusal alters nothing.
pub fn store_image(
    image: &[u8],
    pool: &mut [u8],
    records: &mut [u32],
    words: &mut [u32],
    prev: &mut [u32],
    limit: Limit,
    m: Measures,
) -> Result<(), Refusal>
    requires { StorePre (measures_of m) image.now pool.old records.old words.old prev.old × (limit.others ≤ 524288) }
    ensures { StoreResult (measures_of m) image.now (map word_to_pointer prev.old) (limited limit.others limit.most (measures_of m) (image_blocks m.bytes image.now) (map word_to_pointer prev.old) (placed_in (measures_of m) image.now pool.old records.old)) (refusal_of result) pool.old records.old pool.new records.new words.new prev.new }
{
    let mut free = [true; 32768];
    let mut placed = [0u32; 256];
    let cells = numbers::parts(pool.len(), m.bytes);
    store_image_with(
        image,
        pool,
        records,
        &mut free[..cells],
        &mut placed,
        words,
        prev,
        limit,
        m,
    )
}
