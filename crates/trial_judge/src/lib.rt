// Answers of the store, held against the keeper's.
#![tactic(auto)]

ghost use Rattle.std.specs.Prelude.{cond, [], ◌∷◌, ◌≡◌, eqb, length};
ghost use Rattle.refusals.specs.Refusals.{refusal_of};
ghost use Rattle.trial_report.specs.Counts.{expected, answered_with};
ghost use Rattle.trial_keeper.specs.Notes.{last_given, newer_than, place_of, newest_of, oldest_of, length_of, struck, filed, image_at, filed_images, wrong_from, most_bytes, user_refusal, set_refusal, rights_set};
ghost use Rattle.trial_judge.specs.Judge.{backups, restores, retires, listings, tallies, rights_calls, zeros, refused_as, or_full, wanted_backup, wanted_restore, wanted_retire, compared, backup_version, count_retired, restored_bytes, restored_chain, not_restored, listed_as};

use answers::{BackedUp, Listing, Restored, Retired, Tally};
use layout::Capacities;
use refusals::Refusal;
use rights::Rights;
use trial_report::counts;

// The buffers have the bytes and words of their copies.
#[tactic(auto, unfolding(crate::specs::Judge::compared))]
pub fn unaltered(bytes: &[u8], entries: &[u32], pool: &[u8], table: &[u32], counts: &mut [u64])
    ensures { counts.new ≡ compared counts.old bytes.now entries.now pool.now table.now }
{
    counts::expect_unaltered(counts, trial_compare::differing_bytes(pool, bytes) == 0);
    counts::expect_unaltered(counts, trial_compare::differing_words(table, entries) == 0);
}

// A refusal leaves the buffers as they were.
pub fn buffers(
    refusal: u32,
    bytes: &[u8],
    entries: &[u32],
    pool: &[u8],
    table: &[u32],
    counts: &mut [u64],
)
    ensures { counts.new ≡ cond (eqb refusal 0) counts.old (compared counts.old bytes.now entries.now pool.now table.now) }
{
    if refusal != 0 {
        unaltered(bytes, entries, pool, table, counts);
    }
}

// A refusal has its number, and every other field is 0.
#[tactic(auto, unfolding(crate::specs::Judge::refused_as, crate::specs::Judge::zeros))]
pub fn backup_refused(a: BackedUp, wanted: u32, counts: &mut [u64])
    ensures { counts.new ≡ refused_as counts.old backups a.refusal wanted (a.version ∷ []) }
{
    counts::answered(counts, counts::BACKUPS, a.refusal, wanted);
    counts::expect(counts, a.version == 0);
}

#[tactic(auto, unfolding(crate::specs::Judge::refused_as, crate::specs::Judge::zeros))]
pub fn retire_refused(a: Retired, wanted: u32, counts: &mut [u64])
    ensures { counts.new ≡ refused_as counts.old retires a.refusal wanted (a.length ∷ []) }
{
    counts::answered(counts, counts::RETIRES, a.refusal, wanted);
    counts::expect(counts, a.length == 0);
}

#[tactic(auto, unfolding(crate::specs::Judge::refused_as, crate::specs::Judge::zeros))]
pub fn tally_refused(a: Tally, wanted: u32, counts: &mut [u64])
    ensures { counts.new ≡ refused_as counts.old tallies a.refusal wanted (a.cells ∷ a.records ∷ a.counts ∷ []) }
{
    counts::answered(counts, counts::TALLIES, a.refusal, wanted);
    counts::expect(counts, a.cells == 0);
    counts::expect(counts, a.records == 0);
    counts::expect(counts, a.counts == 0);
}

#[tactic(auto, unfolding(crate::specs::Judge::zeros))]
fn not_listed(a: Listing, counts: &mut [u64])
    ensures { counts.new ≡ zeros counts.old (a.oldest ∷ a.newest ∷ a.last ∷ []) }
{
    counts::expect(counts, a.oldest == 0);
    counts::expect(counts, a.newest == 0);
    counts::expect(counts, a.last == 0);
}

#[tactic(auto, unfolding(crate::specs::Judge::refused_as, crate::specs::Judge::zeros))]
pub fn listing_refused(a: Listing, wanted: u32, counts: &mut [u64])
    ensures { counts.new ≡ refused_as counts.old listings a.refusal wanted (a.oldest ∷ a.newest ∷ a.last ∷ []) }
{
    counts::answered(counts, counts::LISTINGS, a.refusal, wanted);
    not_listed(a, counts);
}

// The output is as it was marked.
#[tactic(auto, unfolding(crate::specs::Judge::not_restored))]
fn not_restored(a: Restored, output: &[u8], counts: &mut [u64])
    ensures { counts.new ≡ not_restored counts.old a.length a.hops output.now }
{
    counts::expect(counts, a.length == 0);
    counts::expect(counts, a.hops == 0);
    counts::expect_unaltered(counts, trial_compare::unmarked(output) == 0);
}

#[tactic(auto, unfolding(crate::specs::Judge::not_restored))]
pub fn restore_refused(a: Restored, wanted: u32, output: &[u8], counts: &mut [u64])
    ensures { counts.new ≡ not_restored (answered_with counts.old restores a.refusal wanted) a.length a.hops output.now }
{
    counts::answered(counts, counts::RESTORES, a.refusal, wanted);
    not_restored(a, output, counts);
}

// Whether there is room, 14 and 16, is for the store to say.
#[tactic(auto, unfolding(crate::specs::Judge::or_full))]
fn or_full(wanted: Result<(), Refusal>, refusal: u32) -> u32
    ensures { result ≡ or_full (refusal_of wanted) refusal }
{
    match wanted {
        Ok(()) if matches!(refusal, 14 | 16) => refusal,
        _ => refusals::answered(&wanted),
    }
}

#[tactic(auto, unfolding(crate::specs::Judge::first_refusal))]
fn backup_number(
    c: Capacities,
    user: u32,
    till: u32,
    bytes: usize,
    refusal: u32,
    notes: &[u32],
    counts: &mut [u64],
)
    ensures { counts.new ≡ answered_with counts.old backups refusal (or_full (wanted_backup c.tills c.versions (most_bytes c.blocks c.measures.bytes) notes.now user till bytes) refusal) }
{
    let may = trial_keeper::refusal_of(c, notes, user, till, trial_keeper::BACK_UP);
    let wanted = may.and(trial_keeper::backup_refusal(c, notes, till, bytes));
    counts::answered(counts, counts::BACKUPS, refusal, or_full(wanted, refusal));
}

// An accepted image is filed.
#[tactic(auto, unfolding(crate::specs::Judge::backup_version))]
fn backup_version(
    a: BackedUp,
    till: u32,
    image: &[u8],
    images: &mut [u8],
    notes: &mut [u32],
    counts: &mut [u64],
)
    ensures { (counts.new ≡ backup_version counts.old a.refusal a.version (last_given (filed notes.old till (length image.now)) till)) × (notes.new ≡ cond (eqb a.refusal 0) (filed notes.old till (length image.now)) notes.old) × (images.new ≡ cond (eqb a.refusal 0) (filed_images images.old notes.old till image.now) images.old) }
{
    if a.refusal == 0 {
        trial_keeper::file(images, notes, till, image);
        counts::expect(counts, a.version == trial_keeper::last(notes, till));
    } else {
        counts::expect(counts, a.version == 0);
    }
}

pub fn backed_up(
    a: BackedUp,
    c: Capacities,
    user: u32,
    till: u32,
    image: &[u8],
    images: &mut [u8],
    notes: &mut [u32],
    counts: &mut [u64],
)
    ensures { (counts.new ≡ backup_version (answered_with counts.old backups a.refusal (or_full (wanted_backup c.tills c.versions (most_bytes c.blocks c.measures.bytes) notes.old user till (length image.now)) a.refusal)) a.refusal a.version (last_given (filed notes.old till (length image.now)) till)) × (notes.new ≡ cond (eqb a.refusal 0) (filed notes.old till (length image.now)) notes.old) × (images.new ≡ cond (eqb a.refusal 0) (filed_images images.old notes.old till image.now) images.old) }
{
    backup_number(c, user, till, image.len(), a.refusal, notes, counts);
    backup_version(a, till, image, images, notes, counts);
}

#[tactic(auto, unfolding(crate::specs::Judge::first_refusal))]
fn retire_number(
    c: Capacities,
    user: u32,
    till: u32,
    version: u32,
    refusal: u32,
    notes: &[u32],
    counts: &mut [u64],
)
    ensures { counts.new ≡ answered_with counts.old retires refusal (wanted_retire c.tills notes.now user till version) }
{
    let may = trial_keeper::refusal_of(c, notes, user, till, trial_keeper::RETIRE);
    let wanted = may.and(trial_keeper::retire_refusal(c, notes, till, version));
    counts::answered(
        counts,
        counts::RETIRES,
        refusal,
        refusals::answered(&wanted),
    );
}

#[tactic(auto, unfolding(crate::specs::Judge::count_retired))]
fn count_retired(till: u32, version: u32, notes: &[u32], counts: &mut [u64])
    ensures { counts.new ≡ count_retired counts.old (oldest_of notes.now till) (newest_of notes.now till) version }
{
    if version == trial_keeper::oldest(notes, till) {
        return;
    }
    let place = if version == trial_keeper::newest(notes, till) {
        counts::NEWEST
    } else {
        counts::BETWEEN
    };
    counts::add(counts, place, 1);
}

// A retired version is struck.
fn retired_version(length: u32, till: u32, version: u32, notes: &mut [u32], counts: &mut [u64])
    ensures { (counts.new ≡ count_retired (expected counts.old (eqb length (length_of notes.old till version))) (oldest_of notes.old till) (newest_of notes.old till) version) × (notes.new ≡ struck notes.old till version) }
{
    let kept = trial_keeper::length(notes, till, version);
    counts::expect(counts, length == kept);
    count_retired(till, version, notes, counts);
    trial_keeper::strike(notes, till, version);
}

pub fn retired(
    a: Retired,
    c: Capacities,
    user: u32,
    till: u32,
    version: u32,
    notes: &mut [u32],
    counts: &mut [u64],
)
    ensures { (counts.new ≡ cond (eqb a.refusal 0) (count_retired (expected (answered_with counts.old retires a.refusal (wanted_retire c.tills notes.old user till version)) (eqb a.length (length_of notes.old till version))) (oldest_of notes.old till) (newest_of notes.old till) version) (expected (answered_with counts.old retires a.refusal (wanted_retire c.tills notes.old user till version)) (eqb a.length 0))) × (notes.new ≡ cond (eqb a.refusal 0) (struck notes.old till version) notes.old) }
{
    retire_number(c, user, till, version, a.refusal, notes, counts);
    if a.refusal == 0 {
        retired_version(a.length, till, version, notes, counts);
    } else {
        counts::expect(counts, a.length == 0);
    }
}

#[tactic(auto, unfolding(crate::specs::Judge::restored_bytes))]
fn restored_bytes(
    a: Restored,
    till: u32,
    version: u32,
    images: &[u8],
    notes: &[u32],
    output: &[u8],
    counts: &mut [u64],
)
    ensures { counts.new ≡ restored_bytes counts.old a.length (wrong_from images.now (image_at till (place_of notes.now till version)) (length_of notes.now till version) output.now) }
{
    let wrong = trial_keeper::wrong_in(images, notes, till, version, output);
    counts::add(counts, counts::VERSIONS, 1);
    counts::add(counts, counts::BYTES, u64::from(a.length));
    counts::add(counts, counts::WRONG_BYTES, wrong as u64);
}

// The chain is no longer than there are newer versions held: 0 for the newest.
#[tactic(auto, unfolding(crate::specs::Judge::restored_chain))]
fn restored_chain(a: Restored, till: u32, version: u32, notes: &[u32], counts: &mut [u64])
    ensures { counts.new ≡ restored_chain counts.old a.length a.hops (length_of notes.now till version) (newer_than notes.now till version) }
{
    let bytes = trial_keeper::length(notes, till, version);
    let newer = trial_keeper::newer(notes, till, version);
    counts::raise(counts, counts::CHAIN, u64::from(a.hops));
    counts::expect(counts, a.length == bytes);
    counts::expect(counts, a.hops <= newer);
}

#[tactic(auto, unfolding(crate::specs::Judge::first_refusal))]
fn restore_number(
    c: Capacities,
    user: u32,
    till: u32,
    version: u32,
    room: usize,
    refusal: u32,
    notes: &[u32],
    counts: &mut [u64],
)
    ensures { counts.new ≡ answered_with counts.old restores refusal (wanted_restore c.tills notes.now user till version room) }
{
    let may = trial_keeper::refusal_of(c, notes, user, till, trial_keeper::RESTORE);
    let wanted = may.and(trial_keeper::restore_refusal(c, notes, till, version, room));
    counts::answered(
        counts,
        counts::RESTORES,
        refusal,
        refusals::answered(&wanted),
    );
}

pub fn restored(
    a: Restored,
    c: Capacities,
    user: u32,
    till: u32,
    version: u32,
    room: usize,
    images: &[u8],
    notes: &[u32],
    output: &[u8],
    counts: &mut [u64],
)
    ensures { counts.new ≡ cond (eqb a.refusal 0) (restored_chain (restored_bytes (answered_with counts.old restores a.refusal (wanted_restore c.tills notes.now user till version room)) a.length (wrong_from images.now (image_at till (place_of notes.now till version)) (length_of notes.now till version) output.now)) a.length a.hops (length_of notes.now till version) (newer_than notes.now till version)) (not_restored (answered_with counts.old restores a.refusal (wanted_restore c.tills notes.now user till version room)) a.length a.hops output.now) }
{
    restore_number(c, user, till, version, room, a.refusal, notes, counts);
    if a.refusal == 0 {
        restored_bytes(a, till, version, images, notes, output, counts);
        restored_chain(a, till, version, notes, counts);
    } else {
        not_restored(a, output, counts);
    }
}

#[tactic(auto, unfolding(crate::specs::Judge::listed_as))]
fn listed_as(a: Listing, till: u32, notes: &[u32], counts: &mut [u64])
    ensures { counts.new ≡ listed_as counts.old a.oldest a.newest a.last (oldest_of notes.now till) (newest_of notes.now till) (last_given notes.now till) }
{
    counts::expect(counts, a.oldest == trial_keeper::oldest(notes, till));
    counts::expect(counts, a.newest == trial_keeper::newest(notes, till));
    counts::expect(counts, a.last == trial_keeper::last(notes, till));
}

#[tactic(auto, unfolding(crate::specs::Judge::refused_as))]
pub fn listed(a: Listing, c: Capacities, user: u32, till: u32, notes: &[u32], counts: &mut [u64])
    ensures { counts.new ≡ cond (eqb (user_refusal c.tills notes.now user till 0) 0) (listed_as (answered_with counts.old listings a.refusal (user_refusal c.tills notes.now user till 0)) a.oldest a.newest a.last (oldest_of notes.now till) (newest_of notes.now till) (last_given notes.now till)) (refused_as counts.old listings a.refusal (user_refusal c.tills notes.now user till 0) (a.oldest ∷ a.newest ∷ a.last ∷ [])) }
{
    let wanted = trial_keeper::refusal_of(c, notes, user, till, trial_keeper::LIST);
    counts::answered(
        counts,
        counts::LISTINGS,
        a.refusal,
        refusals::answered(&wanted),
    );
    if wanted.is_ok() {
        listed_as(a, till, notes, counts);
    } else {
        not_listed(a, counts);
    }
}

// Rights that are set are noted.
pub fn rights_set(
    refusal: u32,
    c: Capacities,
    user: u32,
    subject: u32,
    till: u32,
    rights: Rights,
    notes: &mut [u32],
    counts: &mut [u64],
)
    ensures { (counts.new ≡ answered_with counts.old rights_calls refusal (set_refusal c.tills user subject till)) × (notes.new ≡ cond (eqb refusal 0) (rights_set notes.old till subject rights.list rights.back_up rights.restore rights.retire) notes.old) }
{
    let wanted = trial_keeper::set_refusal(c, user, subject, till);
    counts::answered(counts, counts::RIGHTS, refusal, refusals::answered(&wanted));
    if refusal == 0 {
        trial_keeper::set_rights(notes, till, subject, rights);
    }
}
