// The backup call, step by step on the table.
#![tactic(auto)]

ghost use Rattle.std.specs.Prelude.{◌≡◌, List, map, [], ℕ, ◌+◌, ◌*◌, ◌/◌, ◌≤◌, ◌<◌, length, get_or, take};
ghost use Rattle.refusals.specs.Refusals.{refusal_of};
ghost use Rattle.numbers.specs.Measures.{measures_of};
ghost use Rattle.model.specs.Table.{shape_of, state_in, pointer_word, word_to_pointer};
ghost use Rattle.model.specs.Calls.{backup_of, backup_dated_of};
ghost use Rattle.laws.specs.Stores.{Sound, till_at};
ghost use Rattle.backup_accept.specs.Accept.{Accepted};
ghost use Rattle.chain.specs.Limit.{within};
ghost use Rattle.backup.specs.Backup.{limited_on, StoreInPre, StoreInResult, FilePre, FileResult};
ghost use Rattle.backup.specs.Call.{newest_of, BackupPre, backup_result};

use backup_steps::Limit;
use numbers::Measures;
use refusals::Refusal;
use tills::Head;

// Steps 1 to 3 on the table's records, which begin at `from`. A refusal alters nothing.
pub fn store_in(
    image: &[u8],
    pool: &mut [u8],
    table: &mut [u32],
    from: usize,
    words: &mut [u32],
    prev: &mut [u32],
    m: Measures,
    limit: Limit,
) -> Result<(), Refusal>
    requires { StoreInPre (measures_of m) image.now pool.old table.old from words.old prev.old × (limit.others ≤ 524288) }
    ensures { StoreInResult image.now (map word_to_pointer prev.old) pool.old table.old (limited_on limit.others limit.most pool.old table.old image.now (map word_to_pointer prev.old)) (refusal_of result) pool.new table.new words.new prev.new }
{
    backup_steps::store_image(image, pool, &mut table[from..], words, prev, limit, m)
}

// The till's words, from `at` to `end`, get the turned pointers and the new version.
pub fn file_in(
    table: &mut [u32],
    at: usize,
    end: usize,
    b: usize,
    turned: &[u32],
    bytes: u32,
    day: u32,
    pointers: &[u32],
)
    requires { FilePre table.old at end b turned.now pointers.now }
    ensures { FileResult at end b turned.now bytes day pointers.now table.old table.new }
{
    backup_file::file_version(&mut table[at..end], b, turned, bytes, day, pointers);
}

// The newest version's pointer words, to the front of prev; how many.
fn copy_newest(
    pool: &[u8],
    table: &[u32],
    till: u32,
    at: usize,
    prev: &mut [u32],
    m: Measures,
) -> usize
    requires { Sound pool.now table.now × (till < get_or table.now 0 0) × (at ≡ till_at (shape_of table.now) till) × (length prev.old ≡ 1024) × (measures_of m ≡ (shape_of table.now).measures) }
    ensures { (take result prev.new ≡ map pointer_word (newest_of pool.now table.now till)) × (result ≤ get_or table.now 2 0) }
{
    let b = table[2] as usize;
    let end = at + layout::till_words(table);
    backup_file::newest_pointers(&table[at..end], b, prev, m.bytes)
}

// All steps, from the newest version's pointers on.
fn store_and_file(
    pool: &mut [u8],
    table: &mut [u32],
    till: u32,
    head: Head,
    day: u32,
    image: &[u8],
    prev: &mut [u32],
    words: &mut [u32],
    m: Measures,
    limit: Limit,
) -> Result<u32, Refusal>
    requires { BackupPre (measures_of m) pool.old table.old till head day image.now prev.old words.old × (limit.others ≤ 524288) }
    ensures { backup_result result pool.new table.new ≡ within limit.others limit.most pool.old table.old (backup_dated_of pool.old table.old till day image.now) }
{
    let from = layout::records_at(table);
    let b = table[2] as usize;
    let end = head.at + layout::till_words(table);
    store_in(image, pool, table, from, words, prev, m, limit)?;
    let bytes = image.len();
    let blocks = numbers::parts_for(m.bytes, bytes);
    file_in(
        table,
        head.at,
        end,
        b,
        prev,
        bytes as u32,
        day,
        &words[..blocks],
    );
    Ok(head.last + 1)
}

// With room for the newest version's pointers and for the new ones.
fn back_up_with(
    pool: &mut [u8],
    table: &mut [u32],
    till: u32,
    day: u32,
    image: &[u8],
    prev: &mut [u32],
    words: &mut [u32],
    m: Measures,
    limit: Limit,
) -> Result<u32, Refusal>
    requires { Sound pool.old table.old × Accepted pool.old table.old till day image.now × (length prev.old ≡ 1024) × (length words.old ≡ 1040) × (measures_of m ≡ (shape_of table.old).measures) × (limit.others ≤ 524288) }
    ensures { backup_result result pool.new table.new ≡ within limit.others limit.most pool.old table.old (backup_dated_of pool.old table.old till day image.now) }
{
    let head = tills::till_head(pool, table, till);
    let n = copy_newest(pool, table, till, head.at, prev, m);
    let count = m.segments(image.len()) * m.blocks;
    store_and_file(
        pool,
        table,
        till,
        head,
        day,
        image,
        &mut prev[..n],
        &mut words[..count],
        m,
        limit,
    )
}

// An image has at most 1,024 blocks, which fill up to whole segments of at most 16.
fn back_up_accepted(
    pool: &mut [u8],
    table: &mut [u32],
    till: u32,
    day: u32,
    image: &[u8],
    limit: Limit,
) -> Result<u32, Refusal>
    requires { Sound pool.old table.old × Accepted pool.old table.old till day image.now × (limit.others ≤ 524288) }
    ensures { backup_result result pool.new table.new ≡ within limit.others limit.most pool.old table.old (backup_dated_of pool.old table.old till day image.now) }
{
    let m = layout::measures_in(table);
    let mut prev = [0u32; 1024];
    let mut words = [0u32; 1040];
    back_up_with(
        pool, table, till, day, image, &mut prev, &mut words, m, limit,
    )
}

// The new version has the day, which is not before that of the till's newest one.
pub fn back_up_dated(
    pool: &mut [u8],
    table: &mut [u32],
    till: u32,
    day: u32,
    image: &[u8],
    limit: Limit,
) -> Result<u32, Refusal>
    requires { Sound pool.old table.old × (limit.others ≤ 524288) }
    ensures { backup_result result pool.new table.new ≡ within limit.others limit.most pool.old table.old (backup_dated_of pool.old table.old till day image.now) }
{
    backup_accept::backup_refusal(pool, table, till, day, image)?;
    back_up_accepted(pool, table, till, day, image, limit)
}

// Without a day, the new version has that of the till's newest one.
pub fn back_up(
    pool: &mut [u8],
    table: &mut [u32],
    till: u32,
    image: &[u8],
    limit: Limit,
) -> Result<u32, Refusal>
    requires { Sound pool.old table.old × (limit.others ≤ 524288) }
    ensures { backup_result result pool.new table.new ≡ within limit.others limit.most pool.old table.old (backup_of pool.old table.old till image.now) }
{
    let day = tills::newest_day(pool, table, till);
    back_up_dated(pool, table, till, day, image, limit)
}
