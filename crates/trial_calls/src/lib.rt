// Each call made on the store, its answer judged.
#![tactic(auto)]

ghost use Rattle.std.specs.Prelude.{◌≡◌, ◌+◌, ◌*◌, ◌≤◌, length};

use answers::{BackedUp, Listing, Restored, Retired, TableLength, Tally};
use layout::Capacities;
use refusals::answered;
use rights::Rights;
use trial_report::counts;

// The words of a table as docs/FORMAT.md counts them: header, tills with their slots, records.
fn words_in(tills: u32, versions: u32, blocks: u32, records: u32, segment: u32) -> u32
    requires { (tills ≤ 16) × (versions ≤ 64) × (blocks ≤ 1024) × (records ≤ 4096) × (segment ≤ 16) }
    ensures { result ≡ 8 + tills * (4 + versions * (3 + blocks)) + records * (3 + 2 * segment) }
{
    8 + tills * (4 + versions * (3 + blocks)) + records * (3 + 2 * segment)
}

fn segment_of(c: Capacities) -> u32
    ensures { result ≤ 16 }
{
    let m = c.measures;
    m.blocks.min(16) as u32
}

// None for capacities that no store has.
fn words_of(c: Capacities) -> Option<u32> {
    if 16 < c.tills || 64 < c.versions || 1024 < c.blocks || 4096 < c.records {
        return None;
    }
    Some(words_in(c.tills, c.versions, c.blocks, c.records, segment_of(c)))
}

pub fn table_length(c: Capacities, counts: &mut [u64], expected: u32) {
    let a: TableLength = store::table_length(c).into();
    counts::answered(counts, counts::LENGTHS, a.refusal, expected);
    if a.refusal == 0 {
        counts::expect(counts, words_of(c) == Some(a.words));
    } else {
        counts::expect(counts, a.words == 0);
    }
}

pub fn lay_out(
    c: Capacities,
    pool: &mut [u8],
    table: &mut [u32],
    counts: &mut [u64],
    expected: u32,
) {
    let mut bytes = [0u8; trial_compare::POOL];
    let mut entries = [0u32; trial_compare::TABLE];
    trial_compare::copy(pool, table, &mut bytes, &mut entries);
    let refusal = answered(&store::lay_out(pool, table, c));
    counts::answered(counts, counts::LAYOUTS, refusal, expected);
    trial_judge::buffers(refusal, &bytes, &entries, pool, table, counts);
}

// The store's answer to a backup that leaves the buffers, if it is refused.
fn backed_up(
    user: u32,
    till: u32,
    image: &[u8],
    pool: &mut [u8],
    table: &mut [u32],
    counts: &mut [u64],
) -> BackedUp {
    let mut bytes = [0u8; trial_compare::POOL];
    let mut entries = [0u32; trial_compare::TABLE];
    trial_compare::copy(pool, table, &mut bytes, &mut entries);
    let a: BackedUp = store::backup(pool, table, user, till, image).into();
    trial_judge::buffers(a.refusal, &bytes, &entries, pool, table, counts);
    a
}

pub fn back_up(
    c: Capacities,
    user: u32,
    till: u32,
    image: &[u8],
    pool: &mut [u8],
    table: &mut [u32],
    images: &mut [u8],
    notes: &mut [u32],
    counts: &mut [u64],
) {
    let a = backed_up(user, till, image, pool, table, counts);
    trial_judge::backed_up(a, c, user, till, image, images, notes, counts);
}

fn retired(
    user: u32,
    till: u32,
    version: u32,
    pool: &mut [u8],
    table: &mut [u32],
    counts: &mut [u64],
) -> Retired {
    let mut bytes = [0u8; trial_compare::POOL];
    let mut entries = [0u32; trial_compare::TABLE];
    trial_compare::copy(pool, table, &mut bytes, &mut entries);
    let a: Retired = store::retire(pool, table, user, till, version).into();
    trial_judge::buffers(a.refusal, &bytes, &entries, pool, table, counts);
    a
}

pub fn retire(
    c: Capacities,
    user: u32,
    till: u32,
    version: u32,
    pool: &mut [u8],
    table: &mut [u32],
    notes: &mut [u32],
    counts: &mut [u64],
) {
    let a = retired(user, till, version, pool, table, counts);
    trial_judge::retired(a, c, user, till, version, notes, counts);
}

// Marks the output and restores into its first `room` bytes.
fn restore_into(
    pool: &[u8],
    table: &[u32],
    user: u32,
    till: u32,
    version: u32,
    room: usize,
    output: &mut [u8],
) -> Restored
    requires { room ≤ length output.old }
{
    trial_compare::mark(output);
    store::restore(pool, table, user, till, version, &mut output[0..room]).into()
}

fn restore_and_judge(
    c: Capacities,
    user: u32,
    till: u32,
    version: u32,
    room: usize,
    pool: &[u8],
    table: &[u32],
    images: &[u8],
    notes: &[u32],
    output: &mut [u8],
    counts: &mut [u64],
) {
    if output.len() < room {
        counts::expect(counts, false);
        return;
    }
    let a = restore_into(pool, table, user, till, version, room, output);
    trial_judge::restored(
        a, c, user, till, version, room, images, notes, output, counts,
    );
}

// As much room as an output ever has.
pub const ROOM: usize = 1408;

pub fn restore(
    c: Capacities,
    user: u32,
    till: u32,
    version: u32,
    room: usize,
    pool: &[u8],
    table: &[u32],
    images: &[u8],
    notes: &[u32],
    counts: &mut [u64],
) {
    let mut output = [0u8; ROOM];
    restore_and_judge(
        c,
        user,
        till,
        version,
        room,
        pool,
        table,
        images,
        notes,
        &mut output,
        counts,
    );
}

pub fn list(
    c: Capacities,
    user: u32,
    till: u32,
    pool: &[u8],
    table: &[u32],
    notes: &[u32],
    counts: &mut [u64],
) {
    let a: Listing = store::listing(pool, table, user, till).into();
    trial_judge::listed(a, c, user, till, notes, counts);
}

// The cells tallied are those with a byte other than zero; each has a count, and each record a cell.
pub fn tally(c: Capacities, pool: &[u8], table: &[u32], counts: &mut [u64]) {
    let a: Tally = store::tally(pool, table, 0).into();
    counts::answered(counts, counts::TALLIES, a.refusal, 0);
    counts::expect(
        counts,
        a.cells == trial_compare::filled_cells(pool, c.cells, trial_keeper::block_bytes(c)),
    );
    counts::expect(counts, a.cells <= a.counts);
    counts::expect(counts, a.records <= a.cells);
}

// As a user who is not the owner it gives nothing away.
pub fn tally_as(user: u32, pool: &[u8], table: &[u32], counts: &mut [u64]) {
    let expected = trial_keeper::owner_refusal(user);
    let a: Tally = store::tally(pool, table, user).into();
    if expected.is_ok() {
        counts::answered(counts, counts::TALLIES, a.refusal, 0);
    } else {
        trial_judge::tally_refused(a, answered(&expected), counts);
    }
}

fn rights_set(
    user: u32,
    subject: u32,
    till: u32,
    rights: Rights,
    pool: &[u8],
    table: &mut [u32],
    counts: &mut [u64],
) -> u32 {
    let mut bytes = [0u8; trial_compare::POOL];
    let mut entries = [0u32; trial_compare::TABLE];
    trial_compare::copy(pool, table, &mut bytes, &mut entries);
    let refusal = answered(&store::set_rights(pool, table, user, subject, till, rights));
    trial_judge::buffers(refusal, &bytes, &entries, pool, table, counts);
    refusal
}

pub fn set_rights(
    c: Capacities,
    user: u32,
    subject: u32,
    till: u32,
    rights: Rights,
    pool: &[u8],
    table: &mut [u32],
    notes: &mut [u32],
    counts: &mut [u64],
) {
    let refusal = rights_set(user, subject, till, rights, pool, table, counts);
    trial_judge::rights_set(refusal, c, user, subject, till, rights, notes, counts);
}
