// Every call as every kind of user, on an empty store of 2 tills, 4 versions, 16 blocks per image, 8 records and 32 cells. A user who may make a call meets its
// own refusal next, so that nothing ever changes but the rights, and every other field of an answer is 0.
#![tactic(auto)]

use answers::{AllBackedUp, BackedUp, Listing, Restored, Retired, StreamWritten, VersionFound};
use layout::Capacities;
use numbers::Measures;
use refusals::{Refusal, answered};
use rights::{Right, Rights};
use trial_report::counts;

fn capacities() -> Capacities {
    Capacities {
        tills: 2,
        versions: 4,
        blocks: 16,
        records: 8,
        cells: 32,
        measures: Measures::base(),
    }
}

// A user on a till, with the answers to calls that need the right to list, to back up, to restore or to retire.
#[derive(Clone, Copy)]
struct Case {
    user: u32,
    till: u32,
    list: Result<(), Refusal>,
    keep: Result<(), Refusal>,
    restore: Result<(), Refusal>,
    retire: Result<(), Refusal>,
}

// One answer throughout.
fn same(user: u32, till: u32, may: Result<(), Refusal>) -> Case {
    Case {
        user,
        till,
        list: may,
        keep: may,
        restore: may,
        retire: may,
    }
}

// The n-th right; none past the last.
fn right_of(n: u32) -> Option<Right> {
    match n {
        0 => Some(Right::List),
        1 => Some(Right::BackUp),
        2 => Some(Right::Restore),
        3 => Some(Right::Retire),
        _ => None,
    }
}

// That right alone, or none.
fn alone(right: Option<Right>) -> Rights {
    Rights {
        list: matches!(right, Some(Right::List)),
        back_up: matches!(right, Some(Right::BackUp)),
        restore: matches!(right, Some(Right::Restore)),
        retire: matches!(right, Some(Right::Retire)),
    }
}

fn if_given(given: bool) -> Result<(), Refusal> {
    if given { Ok(()) } else { Err(Refusal::NoRight) }
}

// User 7 has the n-th right alone. Told by the number, not by the rights that were set, so that a wrong one of these is counted.
fn with_one(n: u32) -> Case {
    Case {
        user: 7,
        till: 1,
        list: if_given(n == 0),
        keep: if_given(n == 1),
        restore: if_given(n == 2),
        retire: if_given(n == 3),
    }
}

// The right is given on no other till, and to no other user.
fn with_rights(n: u32) -> Case {
    match n % 3 {
        0 => with_one(n / 3),
        1 => same(7, 0, Err(Refusal::NoRight)),
        _ => same(6, 1, Err(Refusal::NoRight)),
    }
}

// The owner, a user without rights and an unknown one; the same on a till that is not there; then user 7 with each right, and with none.
fn case_of(n: u32) -> Case {
    match n {
        0 => same(0, 1, Ok(())),
        1 => same(1, 1, Err(Refusal::NoRight)),
        2 => same(8, 1, Err(Refusal::UnknownUser)),
        3 => same(0, 2, Err(Refusal::NoSuchTill)),
        4 => same(1, 2, Err(Refusal::NoSuchTill)),
        5 => same(8, 2, Err(Refusal::NoSuchTill)),
        _ => with_rights(n - 6),
    }
}

// The user's refusal, or else the call's own.
fn or_own(may: Result<(), Refusal>, own: Refusal) -> Result<(), Refusal> {
    may.and(Err(own))
}

fn number_or_own(may: Result<(), Refusal>, own: Refusal) -> u32 {
    refusals::answered(&or_own(may, own))
}

fn lists(c: Case, pool: &[u8], table: &[u32], counts: &mut [u64]) {
    let a: Listing = store::listing(pool, table, c.user, c.till).into();
    trial_judge::listing_refused(a, answered(&c.list), counts);
}

// No version is as early as any day.
fn finds(c: Case, pool: &[u8], table: &[u32], counts: &mut [u64]) {
    let a: VersionFound = store::version_on(pool, table, c.user, c.till, 1).into();
    let wanted = number_or_own(c.list, Refusal::NoneSoEarly);
    counts::answered(counts, counts::LISTINGS, a.refusal, wanted);
    counts::expect(counts, a.version == 0);
}

// No bytes.
fn backs_up(c: Case, pool: &mut [u8], table: &mut [u32], counts: &mut [u64]) {
    let a: BackedUp = store::backup(pool, table, c.user, c.till, b"").into();
    trial_judge::backup_refused(a, answered(&or_own(c.keep, Refusal::ImageLength)), counts);
}

fn backs_up_dated(c: Case, pool: &mut [u8], table: &mut [u32], counts: &mut [u64]) {
    let a: BackedUp = store::backup_dated(pool, table, c.user, c.till, 1, b"").into();
    trial_judge::backup_refused(a, answered(&or_own(c.keep, Refusal::ImageLength)), counts);
}

fn backs_up_sent(c: Case, pool: &mut [u8], table: &mut [u32], counts: &mut [u64]) {
    let a: BackedUp = store::backup_sent(pool, table, c.user, c.till, 0, b"", b"", b"").into();
    trial_judge::backup_refused(a, answered(&or_own(c.keep, Refusal::ImageLength)), counts);
}

// Past the two images stands 0, and no version is given.
fn none_taken(refusals: &[u32], versions: &[u32], expected: u32, counts: &mut [u64]) {
    counts::expect(counts, trial_keeper::note_at(refusals, 0) == expected);
    let no_till = u32::from(Refusal::NoSuchTill);
    counts::expect(counts, trial_keeper::note_at(refusals, 1) == no_till);
    counts::expect(counts, trial_compare::filled_words(refusals) == 2);
    counts::expect(counts, trial_compare::filled_words(versions) == 0);
}

// A closing of two images without bytes, of which the second is for no till.
fn closes(c: Case, pool: &mut [u8], table: &mut [u32], counts: &mut [u64]) {
    let tills = [c.till, 2];
    let lengths = [0u32; 2];
    let a: AllBackedUp = store::backup_all(pool, table, c.user, &tills, &lengths, b"").into();
    let refusals = a.refusals;
    let versions = a.versions;
    counts::answered(counts, counts::CLOSINGS, a.refusal, 0);
    let wanted = number_or_own(c.keep, Refusal::ImageLength);
    none_taken(&refusals, &versions, wanted, counts);
}

// No fingerprints.
fn offers(c: Case, pool: &[u8], table: &[u32], counts: &mut [u64]) {
    let mut marks = [0u8; 0];
    let refusal = answered(&store::offer(pool, table, c.user, c.till, b"", &mut marks));
    let wanted = number_or_own(c.keep, Refusal::ImageLength);
    counts::answered(counts, counts::OFFERS, refusal, wanted);
}

// No version has the number 0.
fn restores_into(c: Case, pool: &[u8], table: &[u32], output: &mut [u8], counts: &mut [u64]) {
    trial_compare::mark(output);
    let a: Restored = store::restore(pool, table, c.user, c.till, 0, output).into();
    trial_judge::restore_refused(
        a,
        answered(&or_own(c.restore, Refusal::NeverGiven)),
        output,
        counts,
    );
}

fn restores(c: Case, pool: &[u8], table: &[u32], counts: &mut [u64]) {
    let mut output = [0u8; 64];
    restores_into(c, pool, table, &mut output, counts);
}

fn writes_into(c: Case, pool: &[u8], table: &[u32], output: &mut [u8], counts: &mut [u64]) {
    trial_compare::mark(output);
    let a: StreamWritten = store::write_stream(pool, table, c.user, c.till, 0, output).into();
    let wanted = number_or_own(c.restore, Refusal::NeverGiven);
    counts::answered(counts, counts::RESTORES, a.refusal, wanted);
    counts::expect(counts, a.length == 0);
    counts::expect_unaltered(counts, trial_compare::unmarked(output) == 0);
}

fn writes(c: Case, pool: &[u8], table: &[u32], counts: &mut [u64]) {
    let mut output = [0u8; 64];
    writes_into(c, pool, table, &mut output, counts);
}

fn retires(c: Case, pool: &mut [u8], table: &mut [u32], counts: &mut [u64]) {
    let a: Retired = store::retire(pool, table, c.user, c.till, 0).into();
    trial_judge::retire_refused(a, answered(&or_own(c.retire, Refusal::NeverGiven)), counts);
}

#[derive(Clone, Copy)]
enum Call {
    BackUp,
    BackUpDated,
    BackUpSent,
    Close,
    Retire,
    List,
    Find,
    Offer,
    Restore,
    Write,
}

fn make(call: Call, c: Case, pool: &mut [u8], table: &mut [u32], counts: &mut [u64]) {
    match call {
        Call::BackUp => backs_up(c, pool, table, counts),
        Call::BackUpDated => backs_up_dated(c, pool, table, counts),
        Call::BackUpSent => backs_up_sent(c, pool, table, counts),
        Call::Close => closes(c, pool, table, counts),
        Call::Retire => retires(c, pool, table, counts),
        Call::List => lists(c, pool, table, counts),
        Call::Find => finds(c, pool, table, counts),
        Call::Offer => offers(c, pool, table, counts),
        Call::Restore => restores(c, pool, table, counts),
        Call::Write => writes(c, pool, table, counts),
    }
}

fn make_judged(call: Call, c: Case, pool: &mut [u8], table: &mut [u32], counts: &mut [u64]) {
    let mut bytes = [0u8; trial_compare::POOL];
    let mut entries = [0u32; trial_compare::TABLE];
    trial_compare::copy(pool, table, &mut bytes, &mut entries);
    make(call, c, pool, table, counts);
    trial_judge::unaltered(&bytes, &entries, pool, table, counts);
}

// A user sets another's rights on a till: one alone, or none.
#[derive(Clone, Copy)]
struct Setting {
    user: u32,
    subject: u32,
    till: u32,
    right: Option<Right>,
    expected: Result<(), Refusal>,
}

fn refused(user: u32, subject: u32, till: u32, expected: Refusal) -> Setting {
    Setting {
        user,
        subject,
        till,
        right: Some(Right::List),
        expected: Err(expected),
    }
}

fn set(s: Setting, pool: &[u8], table: &mut [u32], counts: &mut [u64]) {
    let rights = alone(s.right);
    let refusal = answered(&store::set_rights(pool, table, s.user, s.subject, s.till, rights));
    let wanted = refusals::answered(&s.expected);
    counts::answered(counts, counts::RIGHTS, refusal, wanted);
}

fn set_judged(s: Setting, pool: &[u8], table: &mut [u32], counts: &mut [u64]) {
    let mut bytes = [0u8; trial_compare::POOL];
    let mut entries = [0u32; trial_compare::TABLE];
    trial_compare::copy(pool, table, &mut bytes, &mut entries);
    set(s, pool, table, counts);
    if s.expected.is_err() {
        trial_judge::unaltered(&bytes, &entries, pool, table, counts);
    }
}

// Before each third case from the sixth on, user 7 gets other rights.
fn set_before(n: u32, pool: &[u8], table: &mut [u32], counts: &mut [u64]) {
    if 6 <= n && n % 3 == 0 {
        let given = Setting {
            user: 0,
            subject: 7,
            till: 1,
            right: right_of((n - 6) / 3),
            expected: Ok(()),
        };
        set_judged(given, pool, table, counts);
    }
}

// All ten calls of a case.
fn each_call(n: u32, pool: &mut [u8], table: &mut [u32], counts: &mut [u64]) {
    let calls = [
        Call::BackUp,
        Call::BackUpDated,
        Call::BackUpSent,
        Call::Close,
        Call::Retire,
        Call::List,
        Call::Find,
        Call::Offer,
        Call::Restore,
        Call::Write,
    ];
    for call in calls {
        make_judged(call, case_of(n), pool, table, counts);
    }
}

fn each_case(pool: &mut [u8], table: &mut [u32], counts: &mut [u64]) {
    for n in 0..21 {
        set_before(n, pool, table, counts);
        each_call(n, pool, table, counts);
    }
}

// Rights that cannot be set, in the page's order: no till, an unknown user, the owner's or an unknown user's rights, another than the owner.
fn setting_of(n: u32) -> Setting {
    match n {
        0 => refused(8, 0, 2, Refusal::NoSuchTill),
        1 => refused(8, 7, 1, Refusal::UnknownUser),
        2 => refused(0, 0, 1, Refusal::UnknownUser),
        3 => refused(0, 8, 1, Refusal::UnknownUser),
        4 => refused(7, 0, 1, Refusal::UnknownUser),
        _ => refused(7, 7, 1, Refusal::NoRight),
    }
}

fn not_set(pool: &[u8], table: &mut [u32], counts: &mut [u64]) {
    for n in 0..6 {
        set_judged(setting_of(n), pool, table, counts);
    }
}

fn tallies(pool: &[u8], table: &[u32], counts: &mut [u64]) {
    trial_calls::tally_as(0, pool, table, counts);
    trial_calls::tally_as(7, pool, table, counts);
    trial_calls::tally_as(8, pool, table, counts);
}

fn none_done(pool: &[u8], table: &mut [u32], counts: &mut [u64]) {
    not_set(pool, table, counts);
    tallies(pool, table, counts);
}

fn on_store(pool: &mut [u8], table: &mut [u32], counts: &mut [u64]) {
    trial_calls::lay_out(capacities(), pool, table, counts, 0);
    each_case(pool, table, counts);
    none_done(pool, table, counts);
}

pub fn keys(counts: &mut [u64]) {
    let mut pool = [0u8; 2048];
    let mut table = [0u32; 320];
    on_store(&mut pool, &mut table, counts);
}
