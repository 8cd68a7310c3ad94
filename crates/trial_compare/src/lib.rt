// Bytes and words compared, copied, marked and counted.
#![tactic(auto)]

ghost use Rattle.std.specs.Prelude.{[], ◌++◌, ◌≡◌, ◌-◌, ◌≤◌, ◌<◌, length, drop, replicate};
ghost use Rattle.trial_compare.specs.Bytes.{wrong_head, others, Compared, FirstCompared};

use numbers::Cell;

// 1 if another byte stands there, or none.
fn differs_at(bytes: &[u8], at: usize, byte: u8) -> usize
    ensures { (result ≡ wrong_head byte (drop at bytes.now)) × (result ≤ 1) }
{
    usize::from(bytes.len() <= at || bytes[at] != byte)
}

// At how many of the first list's places the second, which may be longer, has another byte or none.
pub fn differing_bytes(a: &[u8], b: &[u8]) -> usize
    ensures { FirstCompared a.now b.now result }
{
    let mut n = 0;
    for (i, byte) in a.iter().enumerate() {
        n += differs_at(b, i, *byte);
    }
    n
}

// At how many places the two differ; a place that one of them has alone counts too.
pub fn wrong_bytes(a: &[u8], b: &[u8]) -> usize
    ensures { Compared a.now b.now result }
{
    differing_bytes(a, b) + b.len().saturating_sub(a.len())
}

// Kept: the new form is no plainer: the contract counts numbers, and the values of a type parameter are none.
fn word_differs_at(words: &[u32], at: usize, word: u32) -> usize
    ensures { (result ≡ wrong_head word (drop at words.now)) × (result ≤ 1) }
{
    usize::from(words.len() <= at || words[at] != word)
}

// The same of words.
pub fn differing_words(words: &[u32], copy: &[u32]) -> usize
    ensures { FirstCompared words.now copy.now result }
{
    let mut n = 0;
    for (i, word) in words.iter().enumerate() {
        n += word_differs_at(copy, i, *word);
    }
    n
}

// Room for a copy of the largest buffers here.
pub const POOL: usize = 4096;

pub const TABLE: usize = 600;

// One that has no room is not made.
fn copy_in<T: Copy>(items: &[T], room: &mut [T])
    ensures { length items.now ≤ length room.old → room.new ≡ items.now ++ drop (length items.now) room.old }
{
    if items.len() <= room.len() {
        room[..items.len()].copy_from_slice(items);
    }
}

// Copies of both buffers, at the front of what is lent. One that has no room is not made, and shows as a difference.
pub fn copy(pool: &[u8], table: &[u32], bytes: &mut [u8], entries: &mut [u32])
    ensures { (length pool.now ≤ length bytes.old → bytes.new ≡ pool.now ++ drop (length pool.now) bytes.old) × (length table.now ≤ length entries.old → entries.new ≡ table.now ++ drop (length table.now) entries.old) }
{
    copy_in(pool, bytes);
    copy_in(table, entries);
}

// What an output is filled with before a restore.
const MARK: u8 = 170;

pub fn mark(output: &mut [u8])
    ensures { output.new ≡ replicate (length output.old) 170 }
{
    output.fill(MARK);
}

// How many are another byte.
pub fn others_than(byte: u8, bytes: &[u8]) -> usize
    ensures { result ≡ others byte bytes.now }
{
    bytes.iter().filter(|b| **b != byte).count()
}

pub fn unmarked(output: &[u8]) -> usize
    ensures { result ≡ others 170 output.now }
{
    others_than(MARK, output)
}

// How many words are other than zero.
pub fn filled_words(words: &[u32]) -> usize
    ensures { result ≡ others 0 words.now }
{
    words.iter().filter(|word| **word != 0).count()
}

// Whether it has a byte other than zero.
fn is_filled(pool: &[u8], cell: Cell, bytes: usize) -> bool
    requires { bytes ≤ 512 }
{
    let at = cell.byte(bytes);
    let end = at + bytes;
    end <= pool.len() && others_than(0, &pool[at..end]) != 0
}

// How many cells, of so many bytes, have a byte other than zero.
pub fn filled_cells(pool: &[u8], cells: u32, bytes: usize) -> u32
    requires { bytes ≤ 512 }
    ensures { result ≤ cells }
{
    let mut n = 0;
    for cell in 0..cells {
        n += u32::from(is_filled(pool, Cell(cell), bytes));
    }
    n
}
