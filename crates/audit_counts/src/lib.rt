// Counts: each is the number of direct pointers to its position. They are counted while the pointers are checked.
#![tactic(auto)]

ghost use Rattle.std.specs.Prelude.{true, false, ◌≡◌, ℕ, ◌+◌, ◌*◌, ◌/◌, ◌^◌, ◌≤◌, ◌<◌, length, get_or};
ghost use Rattle.lists.specs.Decides.{Decides};
ghost use Rattle.model.specs.Measures.{record_words};
ghost use Rattle.audit_counts.specs.Counters.{bumped, counts_after, CountExact, RecordCounts, CountsExact};

use numbers::Segment;

// One word is counted: a direct pointer adds 1 to its position's counter.
pub fn bump(counts: &mut [u32], w: u32)
    requires { (k : ℕ) → get_or counts.old k 0 + 1 < 2 ^ 32 }
    ensures { counts.new ≡ bumped w counts.old }
{
    let kind = w / 0x100_0000;
    let at = (w % 0x100_0000) as usize;
    if kind == 1 && at < counts.len() {
        counts[at] += 1;
    }
}

// Whether a held position's count word is the count and at least 1.
fn count_exact(word: u32, count: u32) -> bool
    ensures { Decides result ((1 ≤ word) × (word ≡ count)) }
{
    word >= 1 && word == count
}

// Whether that holds of every held position of a record, by its counters.
fn record_counts(row: &[u32], counts: &[u32], n: usize) -> bool
    requires { (n ≤ 16) × (length row.now ≡ record_words n) × (n ≤ length counts.now) }
    ensures { Decides result ((i : ℕ) → i < n → CountExact n row.now i (get_or counts.now i 0)) }
{
    let mut m = row[0];
    while m != 0 {
        let p = u32::trailing_zeros(m);
        let i = p as usize;
        if n <= i {
            return true;
        }
        if !count_exact(row[3 + n + i], counts[i]) {
            return false;
        }
        m -= 1u32 << p;
    }
    true
}

// Whether it holds of all records. A record has as many counters as the most positions that one can have.
pub fn records_counts(records: &[u32], counts: &[u32], n: usize) -> bool
    requires { (n ≤ 16) × (length records.now ≤ 4096 * record_words n) × (length counts.now ≡ 65536) }
    ensures { Decides result (RecordCounts n (λ p. get_or counts.now p 0) records.now) }
{
    let width = numbers::row_words(n);
    let counters = counts.chunks_exact(Segment::MOST_BLOCKS);
    for (row, of_row) in records.chunks_exact(width).zip(counters) {
        if !record_counts(row, of_row, n) {
            return false;
        }
    }
    true
}
