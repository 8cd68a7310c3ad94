// Backups by one call at closing: made, and judged as so many backups made singly.
#![tactic(auto)]

pub mod drawn;
pub mod whole;

ghost use Rattle.std.specs.Prelude.{◌≡◌, ◌<◌};

use answers::{AllBackedUp, BackedUp};
use layout::Capacities;
use refusals::Refusal;
use trial_report::counts;

// How many images have an answer of their own: none of a call that is refused whole.
fn answered(refusal: u32, images: usize) -> usize
    ensures { (refusal ≡ 0 → result ≡ images) × (0 < refusal → result ≡ 0) }
{
    if refusal == 0 { images } else { 0 }
}

// Past the last image stands 0.
fn judge_rest(words: &[u32], images: usize, counts: &mut [u64]) {
    if words.len() < images {
        counts::expect(counts, false);
        return;
    }
    counts::expect(counts, trial_compare::filled_words(&words[images..]) == 0);
}

// What can be told of an answer without a keeper.
fn judge_answer(a: AllBackedUp, images: usize, expected: Result<(), Refusal>, counts: &mut [u64]) {
    let refusals = a.refusals;
    let versions = a.versions;
    let n = answered(a.refusal, images);
    let wanted = refusals::answered(&expected);
    counts::answered(counts, counts::CLOSINGS, a.refusal, wanted);
    judge_rest(&refusals, n, counts);
    judge_rest(&versions, n, counts);
}

fn none_taken(a: AllBackedUp) -> bool {
    let versions = a.versions;
    trial_compare::filled_words(&versions) == 0
}

// The call, which leaves the buffers where no version is given.
fn call(
    user: u32,
    tills: &[u32],
    lengths: &[u32],
    sent: &[u8],
    pool: &mut [u8],
    table: &mut [u32],
    counts: &mut [u64],
) -> AllBackedUp {
    let mut bytes = [0u8; trial_compare::POOL];
    let mut entries = [0u32; trial_compare::TABLE];
    trial_compare::copy(pool, table, &mut bytes, &mut entries);
    let a: AllBackedUp = store::backup_all(pool, table, user, tills, lengths, sent).into();
    if none_taken(a) {
        trial_judge::unaltered(&bytes, &entries, pool, table, counts);
    }
    a
}

// The counter that an image's refusal adds to.
fn outcome_of(refusal: u32) -> usize
    ensures { (refusal ≡ 0 → result ≡ 60) × (0 < refusal → result ≡ 61) }
{
    if refusal == 0 {
        counts::TAKEN
    } else {
        counts::TURNED_AWAY
    }
}

// The keeper gets the image as a backup of its own.
fn judge_one(
    a: BackedUp,
    c: Capacities,
    user: u32,
    till: u32,
    image: &[u8],
    images: &mut [u8],
    notes: &mut [u32],
    counts: &mut [u64],
) {
    counts::add(counts, outcome_of(a.refusal), 1);
    trial_judge::backed_up(a, c, user, till, image, images, notes, counts);
}

fn judge_each(
    c: Capacities,
    user: u32,
    tills: &[u32],
    lengths: &[u32],
    sent: &[u8],
    refusals: &[u32],
    versions: &[u32],
    images: &mut [u8],
    notes: &mut [u32],
    counts: &mut [u64],
) {
    let mut from = 0;
    for (i, till) in tills.iter().enumerate() {
        let end = trial_images::end_of(lengths, i, from, sent.len());
        let a = trial_images::answer_at(refusals, versions, i);
        judge_one(a, c, user, *till, &sent[from..end], images, notes, counts);
        from = end;
    }
}

// A closing whose lists fit each other.
fn back_up(
    c: Capacities,
    user: u32,
    tills: &[u32],
    lengths: &[u32],
    sent: &[u8],
    pool: &mut [u8],
    table: &mut [u32],
    images: &mut [u8],
    notes: &mut [u32],
    counts: &mut [u64],
) {
    let a = call(user, tills, lengths, sent, pool, table, counts);
    let refusals = a.refusals;
    let versions = a.versions;
    judge_answer(a, tills.len(), Ok(()), counts);
    judge_each(
        c, user, tills, lengths, sent, &refusals, &versions, images, notes, counts,
    );
}

// Of the lists the first n places, of the room the first bytes: as many as there are. Images that had no place or no room show as a wrong answer.
fn back_up_first(
    c: Capacities,
    user: u32,
    n: usize,
    bytes: usize,
    tills: &[u32],
    lengths: &[u32],
    sent: &[u8],
    pool: &mut [u8],
    table: &mut [u32],
    images: &mut [u8],
    notes: &mut [u32],
    counts: &mut [u64],
) {
    let t = trial_choice::at_most(n, tills.len());
    let l = trial_choice::at_most(n, lengths.len());
    let s = trial_choice::at_most(bytes, sent.len());
    counts::expect(counts, t == n);
    counts::expect(counts, l == n);
    counts::expect(counts, s == bytes);
    back_up(
        c,
        user,
        &tills[0..t],
        &lengths[0..l],
        &sent[0..s],
        pool,
        table,
        images,
        notes,
        counts,
    );
}
