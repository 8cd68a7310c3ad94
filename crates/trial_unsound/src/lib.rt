// All calls on what is no sound store: refused with 10, whoever the user is, and nothing changes.
#![tactic(auto)]

use answers::{BackedUp, Listing, Restored, Retired, Tally};
use refusals::{Refusal, answered};
use rights::Rights;
use trial_draw::dice::Dice;
use trial_report::counts;

fn refuse_image(
    user: u32,
    till: u32,
    image: &[u8],
    pool: &mut [u8],
    table: &mut [u32],
    counts: &mut [u64],
) {
    let a: BackedUp = store::backup(pool, table, user, till, image).into();
    trial_judge::backup_refused(a, Refusal::Unsound.into(), counts);
}

fn refuse_backup(user: u32, till: u32, pool: &mut [u8], table: &mut [u32], counts: &mut [u64]) {
    let image = [1u8; 64];
    refuse_image(user, till, &image, pool, table, counts);
}

fn refuse_retire(
    user: u32,
    till: u32,
    version: u32,
    pool: &mut [u8],
    table: &mut [u32],
    counts: &mut [u64],
) {
    let a: Retired = store::retire(pool, table, user, till, version).into();
    trial_judge::retire_refused(a, Refusal::Unsound.into(), counts);
}

fn refuse_rights(user: u32, till: u32, pool: &[u8], table: &mut [u32], counts: &mut [u64]) {
    let rights = Rights {
        list: true,
        back_up: true,
        restore: true,
        retire: true,
    };
    let refusal = answered(&store::set_rights(pool, table, user, 1, till, rights));
    counts::answered(counts, counts::RIGHTS, refusal, u32::from(Refusal::Unsound));
}

fn refuse_writes(
    user: u32,
    till: u32,
    version: u32,
    pool: &mut [u8],
    table: &mut [u32],
    counts: &mut [u64],
) {
    refuse_backup(user, till, pool, table, counts);
    refuse_retire(user, till, version, pool, table, counts);
    refuse_rights(user, till, pool, table, counts);
}

fn refuse_changes(
    user: u32,
    till: u32,
    version: u32,
    pool: &mut [u8],
    table: &mut [u32],
    counts: &mut [u64],
) {
    let mut bytes = [0u8; trial_compare::POOL];
    let mut entries = [0u32; trial_compare::TABLE];
    trial_compare::copy(pool, table, &mut bytes, &mut entries);
    refuse_writes(user, till, version, pool, table, counts);
    trial_judge::unaltered(&bytes, &entries, pool, table, counts);
}

fn refuse_output(
    user: u32,
    till: u32,
    version: u32,
    pool: &[u8],
    table: &[u32],
    output: &mut [u8],
    counts: &mut [u64],
) {
    trial_compare::mark(output);
    let a: Restored = store::restore(pool, table, user, till, version, output).into();
    trial_judge::restore_refused(a, Refusal::Unsound.into(), output, counts);
}

fn refuse_restore(
    user: u32,
    till: u32,
    version: u32,
    pool: &[u8],
    table: &[u32],
    counts: &mut [u64],
) {
    let mut output = [0u8; 1408];
    refuse_output(user, till, version, pool, table, &mut output, counts);
}

fn refuse_reads(user: u32, till: u32, pool: &[u8], table: &[u32], counts: &mut [u64]) {
    let a: Listing = store::listing(pool, table, user, till).into();
    trial_judge::listing_refused(a, Refusal::Unsound.into(), counts);
    let b: Tally = store::tally(pool, table, user).into();
    trial_judge::tally_refused(b, Refusal::Unsound.into(), counts);
}

fn refuse_all(
    user: u32,
    till: u32,
    version: u32,
    pool: &mut [u8],
    table: &mut [u32],
    counts: &mut [u64],
) {
    refuse_changes(user, till, version, pool, table, counts);
    refuse_restore(user, till, version, pool, table, counts);
    refuse_reads(user, till, pool, table, counts);
}

// With bits of the first till that no sound store has, above the rights or in the reserved word, for as long as the calls are tried.
pub fn damaged(d: Dice, pool: &mut [u8], table: &mut [u32], counts: &mut [u64]) {
    let at = d.pick(8, 2) as usize + 10;
    let word = trial_keeper::note_at(table, at);
    trial_keeper::put_note(table, at, word ^ ((d.pick(16, 15) + 1) << 28));
    refuse_all(
        d.pick(20, 10),
        d.pick(24, 4),
        d.pick(32, 4),
        pool,
        table,
        counts,
    );
    trial_keeper::put_note(table, at, word);
}
