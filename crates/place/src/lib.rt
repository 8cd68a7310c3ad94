// All segments of an image are placed, or none.
#![tactic(auto)]

ghost use Rattle.std.specs.Prelude.{◌≡◌, true, length, replicate};
ghost use Rattle.model.specs.Runs.{free_cells};
ghost use Rattle.model.specs.Table.{cells_in, storage_in};
ghost use Rattle.numbers.specs.Measures.{measures_of};
ghost use Rattle.refusals.specs.Refusals.{refusal_of};
ghost use Rattle.place.specs.All.{PlacePre, PlaceResult, placed_in};

use numbers::{Measures, RecordNumber};
use refusals::Refusal;

// With the free cells known. Each segment takes at most one record more, so the search for an equal one need not look at all.
fn place_segments(
    image: &[u8],
    pool: &mut [u8],
    records: &mut [u32],
    free: &mut [bool],
    placed: &mut [u32],
    words: &mut [u32],
    m: Measures,
) -> Result<(), Refusal>
    requires { PlacePre (measures_of m) image.now pool.old records.old words.old × (free.old ≡ free_cells (storage_in (measures_of m) pool.old records.old)) × (length placed.old ≡ 256) }
    ensures { PlaceResult (measures_of m) image.now (placed_in (measures_of m) image.now pool.old records.old) (refusal_of result) pool.old records.old pool.new records.new placed.new words.new free.new }
{
    let width = m.segment_bytes();
    let n = m.segments(image.len());
    let used = place_free::used_records(records, m.blocks);
    for j in 0..n {
        let first = j * m.blocks;
        let most = used + j;
        match place_segment::place_segment(
            image,
            j * width,
            pool,
            records,
            most,
            free,
            &mut words[first..first + m.blocks],
            m,
        ) {
            // A number past the last record stands for none.
            Ok(record) => placed[j] = record.unwrap_or(RecordNumber(RecordNumber::MOST)).0,
            Err(refusal) => {
                place_undo::undo_all(pool, records, placed, j, m);
                return Err(refusal);
            }
        }
    }
    Ok(())
}

// Step 1 of a backup, with all cells marked free at first. A refusal takes back what it placed; `placed` says how to take all back later, and
// `free` which cells are free now.
pub fn place_all(
    image: &[u8],
    pool: &mut [u8],
    records: &mut [u32],
    free: &mut [bool],
    placed: &mut [u32],
    words: &mut [u32],
    m: Measures,
) -> Result<(), Refusal>
    requires { PlacePre (measures_of m) image.now pool.old records.old words.old × (free.old ≡ replicate (length (cells_in m.bytes pool.old)) true) × (length placed.old ≡ 256) }
    ensures { PlaceResult (measures_of m) image.now (placed_in (measures_of m) image.now pool.old records.old) (refusal_of result) pool.old records.old pool.new records.new placed.new words.new free.new }
{
    place_free::take_all(records, free, m.blocks);
    place_segments(image, pool, records, free, placed, words, m)
}
