// One segment of an image is placed: it needs no record, shares one, or is written to a free one and a run of free cells.
#![tactic(auto)]

ghost use Rattle.std.specs.Prelude.{◌≡◌, ◌<◌, Some, length};
ghost use Rattle.std.proofs.Math.Option.{none};
ghost use Rattle.lists.specs.Lists.{first_from};
ghost use Rattle.model.specs.Image.{blocks_from, with_blanks};
ghost use Rattle.model.specs.Records.{is_free};
ghost use Rattle.model.specs.Runs.{scan};
ghost use Rattle.model.specs.Place.{stored_blocks};
ghost use Rattle.model.specs.Table.{records_in};
ghost use Rattle.numbers.specs.Measures.{measures_of};
ghost use Rattle.place_free.specs.Free.{RestFree};
ghost use Rattle.lists.specs.Search.{as_option};
ghost use Rattle.refusals.specs.Refusals.{refusal_of};
ghost use Rattle.runs.specs.Runs.{run_found};
ghost use Rattle.place_segment.specs.Results.{SegmentResultAt, placed_number};
ghost use Rattle.place_segment.specs.Conditions.{SegmentPre, Masked, Unmatched};

use numbers::{Measures, RecordNumber};
use place_match::Masks;
use refusals::Refusal;
use runs::Run;

// The segment goes into a free record and a run of free cells.
fn write_record(
    image: &[u8],
    from: usize,
    pool: &mut [u8],
    records: &mut [u32],
    free: &mut [bool],
    words: &mut [u32],
    masks: Masks,
    k: RecordNumber,
    run: Run,
    m: Measures,
) -> Result<Option<RecordNumber>, Refusal>
    requires segment_pre { SegmentPre (measures_of m) from pool.old records.old free.old words.old × Masked (measures_of m) image.now from masks.stored masks.blank × Unmatched (measures_of m) image.now from pool.old records.old }
    requires k_in_bounds { (k.0 < length (records_in m.blocks records.old)) × (as_option (length (records_in m.blocks records.old)) k.0 ≡ first_from is_free 0 (records_in m.blocks records.old)) }
    requires run_is { run_found (Some run) ≡ scan (length (stored_blocks with_blanks (blocks_from m.bytes image.now from m.blocks))) free.old 0 0 none }
    ensures { SegmentResultAt (measures_of m) image.now from (refusal_of result) (placed_number result) pool.old records.old pool.new records.new free.new words.new }
{
    let start = k.word(m.blocks);
    let end = start + numbers::row_words(m.blocks);
    let first = run.start;
    place_match::copy_blocks(image, from, pool, first, masks.stored, m.bytes, m.blocks);
    place_words::new_row(
        &mut records[start..end],
        masks.stored,
        masks.blank,
        first,
        m.blocks,
    );
    place_free::take_row(&records[start..end], free, m.blocks);
    place_words::put_places(words, masks.stored, masks.blank, k);
    Ok(Some(k))
}

// A segment that no record serves.
fn write_segment(
    image: &[u8],
    from: usize,
    pool: &mut [u8],
    records: &mut [u32],
    free: &mut [bool],
    words: &mut [u32],
    masks: Masks,
    m: Measures,
) -> Result<Option<RecordNumber>, Refusal>
    requires { SegmentPre (measures_of m) from pool.old records.old free.old words.old × Masked (measures_of m) image.now from masks.stored masks.blank × Unmatched (measures_of m) image.now from pool.old records.old }
    ensures { SegmentResultAt (measures_of m) image.now from (refusal_of result) (placed_number result) pool.old records.old pool.new records.new free.new words.new }
{
    let Some(k) = place_free::free_record(records, m.blocks) else {
        return Err(Refusal::NoRecord);
    };
    let need = masks.stored.count_ones() as usize;
    let Some(run) = runs::best_run(free, true, need) else {
        return Err(Refusal::NoRun);
    };
    write_record(image, from, pool, records, free, words, masks, k, run, m)
}

// A segment that has a stored block. The records from `used` on are free.
fn place_blocks(
    image: &[u8],
    from: usize,
    pool: &mut [u8],
    records: &mut [u32],
    used: usize,
    free: &mut [bool],
    words: &mut [u32],
    masks: Masks,
    m: Measures,
) -> Result<Option<RecordNumber>, Refusal>
    requires { SegmentPre (measures_of m) from pool.old records.old free.old words.old × Masked (measures_of m) image.now from masks.stored masks.blank × RestFree used (records_in m.blocks records.old) }
    ensures { SegmentResultAt (measures_of m) image.now from (refusal_of result) (placed_number result) pool.old records.old pool.new records.new free.new words.new }
{
    let Some(k) = place_match::match_record(
        image,
        from,
        masks.stored,
        masks.blank,
        pool,
        records,
        used,
        m,
    ) else {
        return write_segment(image, from, pool, records, free, words, masks, m);
    };
    let start = k.word(m.blocks);
    let end = start + numbers::row_words(m.blocks);
    place_words::raise_row(&mut records[start..end], m.blocks);
    place_words::put_places(words, masks.stored, masks.blank, k);
    Ok(Some(k))
}

// The segment's record, or none where it needs none. The records from `used` on are free.
pub fn place_segment(
    image: &[u8],
    from: usize,
    pool: &mut [u8],
    records: &mut [u32],
    used: usize,
    free: &mut [bool],
    words: &mut [u32],
    m: Measures,
) -> Result<Option<RecordNumber>, Refusal>
    requires { SegmentPre (measures_of m) from pool.old records.old free.old words.old × RestFree used (records_in m.blocks records.old) }
    ensures { SegmentResultAt (measures_of m) image.now from (refusal_of result) (placed_number result) pool.old records.old pool.new records.new free.new words.new }
{
    let masks = place_match::segment_masks(image, from, m.bytes, m.blocks);
    if masks.stored == 0 {
        place_words::put_places(words, masks.stored, masks.blank, RecordNumber(0));
        return Ok(None);
    }
    place_blocks(image, from, pool, records, used, free, words, masks, m)
}
