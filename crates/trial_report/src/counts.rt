// The counters: at n stands how many calls got the number n (0: accepted), from 40 on the things named here.
ghost use Rattle.std.specs.Prelude.{◌≡◌, slice_index, slice_set};
ghost use Rattle.trial_report.specs.Counts.{added, added_if, raised, expected, unaltered, answered_with};

// Kept: the new form is no plainer: a counter is a place in a list, by whose number the judges' contracts tell it.
pub const LENGTHS: usize = 40;

pub const LAYOUTS: usize = 41;

pub const BACKUPS: usize = 42;

pub const RESTORES: usize = 43;

pub const RETIRES: usize = 44;

pub const LISTINGS: usize = 45;

pub const TALLIES: usize = 46;

pub const CALLS: usize = 47;

pub const VERSIONS: usize = 48;

pub const BYTES: usize = 49;

pub const CHAIN: usize = 50;

pub const WRONG_BYTES: usize = 51;

pub const WRONG_ANSWERS: usize = 52;

pub const ALTERED: usize = 53;

// Retired with an older one held: the newest, or one between.
pub const NEWEST: usize = 54;

pub const BETWEEN: usize = 55;

// First messages, and the segments of both: had by the box, or sent.
pub const OFFERS: usize = 56;

pub const HAD: usize = 57;

pub const SENT: usize = 58;

// Calls at closing, and the images of those that are not refused whole: taken, or refused each by itself. Such an image counts as a call too.
pub const CLOSINGS: usize = 59;

pub const TAKEN: usize = 60;

pub const TURNED_AWAY: usize = 61;

pub const RIGHTS: usize = 62;

pub fn count_at(counts: &[u64], at: usize) -> u64
    ensures { result ≡ slice_index counts.now at }
{
    counts.get(at).copied().unwrap_or(0)
}

fn put(counts: &mut [u64], at: usize, n: u64)
    ensures { counts.new ≡ slice_set counts.old at n }
{
    if at < counts.len() {
        counts[at] = n;
    }
}

#[tactic(auto, unfolding(crate::specs::Counts::added))]
pub fn add(counts: &mut [u64], at: usize, n: u64)
    ensures { counts.new ≡ added counts.old at n }
{
    let sum = count_at(counts, at).wrapping_add(n);
    put(counts, at, sum);
}

#[tactic(auto, unfolding(crate::specs::Counts::added_if))]
fn add_if(counts: &mut [u64], ok: bool, at: usize)
    ensures { counts.new ≡ added_if ok counts.old at }
{
    if ok {
        add(counts, at, 1);
    }
}

// The largest seen.
#[tactic(auto, unfolding(crate::specs::Counts::raised))]
pub fn raise(counts: &mut [u64], at: usize, n: u64)
    ensures { counts.new ≡ raised counts.old at n }
{
    if count_at(counts, at) < n {
        put(counts, at, n);
    }
}

#[tactic(auto, unfolding(crate::specs::Counts::expected))]
pub fn expect(counts: &mut [u64], ok: bool)
    ensures { counts.new ≡ expected counts.old ok }
{
    if !ok {
        add(counts, WRONG_ANSWERS, 1);
    }
}

#[tactic(auto, unfolding(crate::specs::Counts::unaltered))]
pub fn expect_unaltered(counts: &mut [u64], ok: bool)
    ensures { counts.new ≡ unaltered counts.old ok }
{
    if !ok {
        add(counts, ALTERED, 1);
    }
}

// A call got a number where one was expected.
#[tactic(auto, unfolding(crate::specs::Counts::answered_with))]
pub fn answered(counts: &mut [u64], kind: usize, refusal: u32, wanted: u32)
    ensures { counts.new ≡ answered_with counts.old kind refusal wanted }
{
    add(counts, CALLS, 1);
    add_if(counts, refusal == 0, kind);
    add_if(counts, refusal < 40, refusal as usize);
    expect(counts, refusal == wanted);
}
