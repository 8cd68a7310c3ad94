// A till of a sound store: where its words are, the version of a number or of a day, and its listing.
#![tactic(auto)]

ghost use Rattle.std.specs.Prelude.{◌≡◌, ℕ, ◌<◌, length, get_or};
ghost use Rattle.refusals.specs.Refusals.{number_of};
ghost use Rattle.model.specs.Table.{shape_of, state_in};
ghost use Rattle.model.specs.Calls.{till_of, newest_day, not_held, listing_of, version_on_of};
ghost use Rattle.laws.specs.Stores.{till_at, Sound};
ghost use Rattle.tills.specs.Answers.{HeadOf, versions_held, numbers_held, days_held, PlaceFound, LookedUp, UptoDay, listing_result, version_on_result};

use refusals::Refusal;

// A till's first word, its last number given and how many versions it holds.
#[derive(Clone, Copy, Debug, PartialEq, Eq)]
pub struct Head {
    pub at: usize,
    pub last: u32,
    pub held: u32,
}

// The numbers of a till's oldest and newest held versions, 0 if it holds none, and the last number given.
#[derive(Clone, Copy, Debug, PartialEq, Eq)]
pub struct Listed {
    pub oldest: u32,
    pub newest: u32,
    pub last: u32,
}

// Where a till's words begin, and what its head says.
#[tactic(auto, using(crate::proofs::Cases::within_table, crate::proofs::Cases::head_is, laws::proofs::Stores::header))]
pub fn till_head(pool: &[u8], table: &[u32], till: u32) -> Head
    requires { Sound pool.now table.now × (till < get_or table.now 0 0) }
    ensures { HeadOf pool.now table.now till result }
{
    let at = layout::HEADER_WORDS + till as usize * layout::till_words(table);
    Head {
        at,
        last: table[at],
        held: table[at + 1],
    }
}

// The number of the version at place j of those held, the oldest first.
#[tactic(auto, using(crate::proofs::Cases::slot_within, crate::proofs::Cases::number_is, laws::proofs::Stores::header))]
fn number_at(pool: &[u8], table: &[u32], till: u32, at: usize, j: usize) -> u32
    requires { Sound pool.now table.now × (till < get_or table.now 0 0) × (at ≡ till_at (shape_of table.now) till) × (j < length (versions_held pool.now table.now till)) }
    ensures { result ≡ get_or (numbers_held pool.now table.now till) j 0 }
{
    let width = 3 + table[2] as usize;
    table[at + (4 + j * width)]
}

// The place of a version among those held, the oldest first, if it is held.
fn place_of(pool: &[u8], table: &[u32], till: u32, head: Head, version: u32) -> Option<usize>
    requires { Sound pool.now table.now × (till < get_or table.now 0 0) × HeadOf pool.now table.now till head }
    ensures { PlaceFound pool.now table.now till version result }
{
    for j in 0..head.held as usize {
        if number_at(pool, table, till, head.at, j) == version {
            return Some(j);
        }
    }
    None
}

// The refusal of a number that is not held: it was never given, or it was and is no longer held.
#[tactic(auto, unfolding(model::specs::Calls::not_held))]
fn not_held(last: u32, version: u32) -> Refusal
    ensures { number_of result ≡ not_held last version }
{
    if version == 0 || last < version {
        Refusal::NeverGiven
    } else {
        Refusal::NoLongerHeld
    }
}

// A version number looked up: the version's place among those held, the oldest first.
#[tactic(auto, using(crate::proofs::Cases::looked_past))]
pub fn look_up(
    pool: &[u8],
    table: &[u32],
    till: u32,
    head: Head,
    version: u32,
) -> Result<usize, Refusal>
    requires { Sound pool.now table.now × (till < get_or table.now 0 0) × HeadOf pool.now table.now till head }
    ensures { LookedUp pool.now table.now till version result }
{
    match place_of(pool, table, till, head, version) {
        Some(j) => Ok(j),
        None => Err(not_held(head.last, version)),
    }
}

#[tactic(auto, using(laws::proofs::Stores::header))]
pub fn list_till(pool: &[u8], table: &[u32], till: u32) -> Result<Listed, Refusal>
    requires { Sound pool.now table.now }
    ensures { listing_result result ≡ listing_of pool.now table.now till }
{
    if table[0] <= till {
        return Err(Refusal::NoSuchTill);
    }
    let head = till_head(pool, table, till);
    if head.held == 0 {
        return Ok(Listed {
            oldest: 0,
            newest: 0,
            last: head.last,
        });
    }
    Ok(Listed {
        oldest: number_at(pool, table, till, head.at, 0),
        newest: number_at(pool, table, till, head.at, head.held as usize - 1),
        last: head.last,
    })
}

// The day of the version at place j of those held, the oldest first.
#[tactic(auto, using(crate::proofs::Cases::slot_within, crate::proofs::Days::day_within, crate::proofs::Days::day_is, laws::proofs::Stores::header))]
fn day_at(pool: &[u8], table: &[u32], till: u32, at: usize, j: usize) -> u32
    requires { Sound pool.now table.now × (till < get_or table.now 0 0) × (at ≡ till_at (shape_of table.now) till) × (j < length (versions_held pool.now table.now till)) }
    ensures { result ≡ get_or (days_held pool.now table.now till) j 0 }
{
    let width = 3 + table[2] as usize;
    let slot = at + (4 + j * width);
    table[slot + 2]
}

// The day of a till's newest held version; 0 if it holds none, or is not there.
#[tactic(auto, using(laws::proofs::Stores::header))]
pub fn newest_day(pool: &[u8], table: &[u32], till: u32) -> u32
    requires { Sound pool.now table.now }
    ensures { result ≡ newest_day (till_of (state_in (shape_of table.now) pool.now table.now) till).versions }
{
    // Kept: a promise that may not change: newest_day is 0 where no version is held.
    if table[0] <= till {
        return 0;
    }
    let head = till_head(pool, table, till);
    if head.held == 0 {
        return 0;
    }
    day_at(pool, table, till, head.at, head.held as usize - 1)
}

// The place of the newest held version that is not after a day, if there is one.
fn upto_day(pool: &[u8], table: &[u32], till: u32, head: Head, day: u32) -> Option<usize>
    requires { Sound pool.now table.now × (till < get_or table.now 0 0) × HeadOf pool.now table.now till head }
    ensures { UptoDay pool.now table.now till day result }
{
    for newest in (0..head.held as usize).rev() {
        if day_at(pool, table, till, head.at, newest) <= day {
            return Some(newest);
        }
    }
    None
}

// The newest held version that is not after a day.
#[tactic(auto, using(laws::proofs::Stores::header))]
pub fn version_on(pool: &[u8], table: &[u32], till: u32, day: u32) -> Result<u32, Refusal>
    requires { Sound pool.now table.now }
    ensures { version_on_result result ≡ version_on_of pool.now table.now till day }
{
    if table[0] <= till {
        return Err(Refusal::NoSuchTill);
    }
    let head = till_head(pool, table, till);
    match upto_day(pool, table, till, head, day) {
        Some(newest) => Ok(number_at(pool, table, till, head.at, newest)),
        None => Err(Refusal::NoneSoEarly),
    }
}
