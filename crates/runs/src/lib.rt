// The shortest maximal run of free cells that is long enough, the lowest of equals.
#![tactic(auto)]

ghost use Rattle.std.specs.Prelude.{◌≡◌, Bool, List, map, ◌++◌, ◌+◌, ◌-◌, ◌≤◌, ◌<◌, length, take, drop, replicate};
ghost use Rattle.std.proofs.Math.Option.{none};
ghost use Rattle.lists.specs.Lists.{count};
ghost use Rattle.model.specs.Runs.{better, scan};
ghost use Rattle.runs.specs.Runs.{found_at_end, free_if, left, run_found};

use numbers::Cell;

// Consecutive cells from `start` on.
#[derive(Clone, Copy)]
pub struct Run {
    pub start: Cell,
    pub size: usize,
}

impl Run {
    // The better of the best run so far, if there is one, and the one of `size` cells that ends before cell `at`.
    pub fn or(best: Option<Run>, at: Cell, size: usize, need: usize) -> Option<Run>
        requires { (0 < need) × (size ≤ at.0) × (at.0 ≤ 65536) }
        ensures { run_found result ≡ better need at.0 size (run_found best) }
    {
        if size < need {
            return best;
        }
        match best {
            Some(run) if run.size <= size => best,
            _ => Some(Run::ended(at, size)),
        }
    }

    // The run of `size` cells that ends before cell `at`.
    pub fn ended(at: Cell, size: usize) -> Run
        requires { (size ≤ at.0) × (at.0 ≤ 65536) }
        ensures { result ≡ record { start = record { 0 = at.0 - size }; size = size } }
    {
        Run {
            start: Cell(at.0 - size as u32),
            size,
        }
    }
}

// How many of the piece's cells are free. No exit from the loop and a count of 8 bits, so that the compiler takes many marks at a time.
fn count_free(piece: &[bool], free: bool) -> u8
    requires { length piece.now ≤ 64 }
    ensures { result ≡ count (free_if free) piece.now }
{
    let mut count: u8 = 0;
    for mark in piece {
        count += u8::from(*mark == free);
    }
    count
}

// Where a search stands: the best run that ended before cell `at`, and how many free cells end there.
#[derive(Clone, Copy)]
struct Search {
    best: Option<Run>,
    run: usize,
    at: usize,
}

impl Search {
    // Past n cells that are all free or all taken.
    fn past(self, free: bool, n: usize, need: usize) -> Search
        requires { (0 < need) × (0 < n) × (self.run ≤ self.at) × (self.at + n ≤ 65536) }
        ensures { (result.at ≡ self.at + n) × (result.run ≤ result.at) × ((fs : List Bool) → left need fs result ≡ left need (replicate n free ++ fs) self) }
    {
        let at = self.at + n;
        if free {
            Search {
                run: self.run + n,
                at,
                ..self
            }
        } else {
            Search {
                best: Run::or(self.best, Cell(self.at as u32), self.run, need),
                run: 0,
                at,
            }
        }
    }
}

// The search goes on cell by cell past a part of the marks.
fn by_cell(part: &[bool], free: bool, need: usize, from: Search) -> Search
    requires { (0 < need) × (from.run ≤ from.at) × (from.at + length part.now ≤ 65536) }
    ensures { (result.at ≡ from.at + length part.now) × (result.run ≤ result.at) × ((fs : List Bool) → left need fs result ≡ left need (map (free_if free) part.now ++ fs) from) }
{
    let mut search = from;
    for mark in part {
        search = search.past(*mark == free, 1, need);
    }
    search
}

// The search goes on by 64 cells: at once where all are free or none is.
fn by_piece(piece: &[bool], free: bool, need: usize, from: Search) -> Search
    requires { (0 < need) × (length piece.now ≡ 64) × (from.run ≤ from.at) × (from.at + 64 ≤ 65536) }
    ensures { (result.at ≡ from.at + 64) × (result.run ≤ result.at) × ((fs : List Bool) → left need fs result ≡ left need (map (free_if free) piece.now ++ fs) from) }
{
    let count = count_free(piece, free);
    if count == 0 {
        return from.past(false, 64, need);
    }
    if count == 64 {
        return from.past(true, 64, need);
    }
    by_cell(piece, free, need, from)
}

// The marks that are `free` are those of free cells. The search goes by 64 cells, and by one at the end. No run is better than one that just fits,
// so it ends there.
pub fn best_run(marks: &[bool], free: bool, need: usize) -> Option<Run>
    requires { (0 < need) × (length marks.now ≤ 65536) }
    ensures { run_found result ≡ scan need (map (free_if free) marks.now) 0 0 none }
{
    let mut search = Search {
        best: None,
        run: 0,
        at: 0,
    };
    let pieces = marks.chunks_exact(64);
    let rest = pieces.remainder();
    for piece in pieces {
        match search.best {
            Some(run) if run.size == need => return search.best,
            _ => search = by_piece(piece, free, need, search),
        }
    }
    let end = by_cell(rest, free, need, search);
    Run::or(end.best, Cell(end.at as u32), end.run, need)
}
