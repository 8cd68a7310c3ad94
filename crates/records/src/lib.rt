// A segment record by value: the masks of its held, removed and blank positions, how many positions it has, and the cell and the count of each.
#![tactic(auto)]

ghost use Rattle.std.specs.Prelude.{◌≡◌, true, List, map, ◌++◌, ℕ, ◌+◌, ◌*◌, ◌%◌, ◌≤◌, ◌<◌, length, get_or, set, take, drop};
ghost use Rattle.lists.specs.Lists.{count};
ghost use Rattle.lists.specs.Masks.{mask_of};
ghost use Rattle.lists.specs.Rows.{fill};
ghost use Rattle.lists.specs.Decides.{Decides};
ghost use Rattle.model.specs.Measures.{record_words};
ghost use Rattle.model.specs.State.{null_position, removed, Segment};
ghost use Rattle.model.specs.Records.{is_held, count_of, free_segment};
ghost use Rattle.model.specs.Table.{position_of, record_to_words};
ghost use Rattle.model.specs.Sweep.{is_unreferenced, struck, moved};
ghost use Rattle.records.specs.Records.{positions, record_of, record_in, Formed};

use numbers::{Cell, RecordNumber};

#[derive(Clone, Copy)]
pub struct Record {
    pub held: u32,
    pub removed: u32,
    pub blank: u32,
    pub used: usize,
    pub cells: [u32; Record::POSITIONS],
    pub counts: [u32; Record::POSITIONS],
}

impl Record {
    // The most that can be.
    pub const POSITIONS: usize = 16;

    pub fn free(positions: usize) -> Record
        requires { positions ≤ 16 }
        ensures { result ≡ record_of (free_segment positions) }
    {
        Record {
            held: 0,
            removed: 0,
            blank: 0,
            used: positions,
            cells: [0; Record::POSITIONS],
            counts: [0; Record::POSITIONS],
        }
    }

    // How many positions are held.
    pub fn size(self) -> u32
        requires { Formed self }
        ensures { result ≡ count is_held (positions self) }
    {
        self.held.count_ones()
    }

    // The mask of the held positions whose count is 0, from the last position down.
    pub fn unreferenced(self) -> u32
        requires { Formed self }
        ensures { result ≡ mask_of is_unreferenced (positions self) }
    {
        let mut mask: u32 = 0;
        for i in (0..self.used).rev() {
            mask = 2 * mask + u32::from(unused(self.held >> i, self.counts[i]));
        }
        mask
    }

    // One position struck. The others stay.
    pub fn strike(mut self, position: usize) -> Record
        requires formed { Formed self }
        requires position_in_bounds { (position < length (positions self)) × (is_held (get_or (positions self) position null_position) ≡ true) }
        ensures { result ≡ record_of (set (positions self) position removed) }
    {
        let bit = 1u32 << position;
        self.held -= bit;
        self.removed += bit;
        self.cells[position] = 0;
        self.counts[position] = 0;
        self
    }

    // The positions that go are struck; `unreferenced` is their mask.
    #[tactic(auto, using(numbers::proofs::Bits::bits))]
    pub fn strike_all(self, unreferenced: u32) -> Record
        requires formed { Formed self }
        requires unreferenced_value { unreferenced ≡ mask_of is_unreferenced (positions self) }
        ensures { result ≡ record_of (map struck (positions self)) }
    {
        let mut now = self;
        let mut left = unreferenced;
        while left != 0 {
            let p = left.trailing_zeros();
            let i = p as usize;
            now = now.strike(i);
            left -= 1u32 << p;
        }
        now
    }

    // The held positions, none of which goes, take consecutive cells from `start`.
    #[tactic(auto, using(numbers::proofs::Bits::bits))]
    pub fn renumber(mut self, start: Cell) -> Record
        requires formed { Formed self }
        requires self_value { (mask_of is_unreferenced (positions self) ≡ 0) × (start.0 < 65536) }
        ensures { result ≡ record_of (moved start.0 (positions self)) }
    {
        let mut left = self.held;
        let mut at = start.0;
        while left != 0 {
            let p = left.trailing_zeros();
            let i = p as usize;
            self.cells[i] = at;
            at += 1;
            left -= 1u32 << p;
        }
        self
    }

    // Written into its row among the words of records of so many positions.
    pub fn store(self, words: &mut [u32], number: RecordNumber, n: usize)
        requires formed { Formed self × (length (positions self) ≡ n) }
        requires n_in_bounds { number.0 * record_words n + record_words n ≤ length words.old }
        ensures { words.new ≡ take (number.0 * record_words n) words.old ++ (record_to_words (positions self) ++ drop (record_words n) (drop (number.0 * record_words n) words.old)) }
    {
        let at = number.word(n);
        let head = [self.held, self.removed, self.blank];
        let cells = self.cells;
        let counts = self.counts;
        put_at(&head, words, at);
        put_at(&cells[..n], words, at + 3);
        put_at(&counts[..n], words, at + 3 + n);
    }
}

// Whether a position is held with count 0; `held` is the mask from that position on.
fn unused(held: u32, count: u32) -> bool
    ensures { result ≡ is_unreferenced (position_of (held % 2) 0 0 0 count) }
{
    held % 2 != 0 && count == 0
}

// Whether one of some positions goes, where `held` is their mask.
fn any_unused(held: u32, counts: &[u32]) -> bool
    ensures { (seg : Segment) → held ≡ mask_of is_held seg → counts.now ≡ map count_of seg → Decides result (0 < count is_unreferenced seg) }
{
    let mut left = held;
    for count in counts {
        if unused(left, *count) {
            return true;
        }
        left /= 2;
    }
    false
}

// Whether a position of the record in a row goes. The row is only read, since most records keep all of theirs.
pub fn any_unreferenced(words: &[u32], number: RecordNumber, n: usize) -> bool
    requires { (n ≤ 16) × (number.0 * record_words n + record_words n ≤ length words.now) }
    ensures { (seg : Segment) → length seg ≡ n → take (record_words n) (drop (number.0 * record_words n) words.now) ≡ record_to_words seg → Decides result (0 < count is_unreferenced seg) }
{
    let at = number.word(n);
    if words[at] == 0 {
        return false;
    }
    let from = at + 3 + n;
    any_unused(words[at], &words[from..from + n])
}

// The record of n positions in a row of the records' words.
pub fn load(words: &[u32], number: RecordNumber, n: usize) -> Record
    requires { (n ≤ 16) × (number.0 * record_words n + record_words n ≤ length words.now) }
    ensures { result ≡ record_in n (take (record_words n) (drop (number.0 * record_words n) words.now)) }
{
    let at = number.word(n);
    let cells = sixteen(words, at + 3, n);
    let counts = sixteen(words, at + 3 + n, n);
    Record {
        held: words[at],
        removed: words[at + 1],
        blank: words[at + 2],
        used: n,
        cells,
        counts,
    }
}

// n of the words, with zeros in the room that is left.
fn sixteen(words: &[u32], at: usize, n: usize) -> [u32; Record::POSITIONS]
    requires { (n ≤ 16) × (at + n ≤ length words.now) }
    ensures { result ≡ fill 16 (take n (drop at words.now)) }
{
    let mut a = [0u32; Record::POSITIONS];
    a[..n].copy_from_slice(&words[at..at + n]);
    a
}

// Words to a place.
fn put_at(row: &[u32], table: &mut [u32], at: usize)
    requires { at + length row.now ≤ length table.old }
    ensures { table.new ≡ take at table.old ++ (row.now ++ drop (at + length row.now) table.old) }
{
    table[at..at + row.len()].copy_from_slice(row);
}
