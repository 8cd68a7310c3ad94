// One drawn call, of a drawn user. After a backup, a retire or a change of rights all is checked.
use layout::Capacities;
use rights::Rights;
use trial_draw::dice::Dice;
use trial_report::counts;

// By one call, or by both messages. An image that had no room is a wrong answer.
fn back_up_first(
    c: Capacities,
    user: u32,
    messages: bool,
    till: u32,
    bytes: usize,
    image: &[u8],
    pool: &mut [u8],
    table: &mut [u32],
    images: &mut [u8],
    notes: &mut [u32],
    counts: &mut [u64],
) {
    let n = trial_choice::at_most(bytes, image.len());
    let first = &image[0..n];
    counts::expect(counts, n == bytes);
    if messages {
        trial_sent::back_up(c, user, till, first, pool, table, images, notes, counts);
    } else {
        trial_calls::back_up(c, user, till, first, pool, table, images, notes, counts);
    }
}

// One time in three by messages.
fn back_up(
    c: Capacities,
    d: Dice,
    pool: &mut [u8],
    table: &mut [u32],
    images: &mut [u8],
    notes: &mut [u32],
    counts: &mut [u64],
) {
    let mut image = [0u8; 1408];
    let bytes = trial_choice::draw_image(c, d, &mut image);
    back_up_first(
        c,
        trial_choice::user_of(d),
        d.pick(4, 3) == 0,
        trial_choice::till_of(c, d),
        bytes,
        &image,
        pool,
        table,
        images,
        notes,
        counts,
    );
}

// That at a drawn place, or the oldest if the place is free: 0 if none is held.
fn held_of(d: Dice, till: u32, notes: &[u32]) -> u32 {
    match trial_keeper::number_at(notes, till, d.pick(24, trial_keeper::PLACES)) {
        0 => trial_keeper::oldest(notes, till),
        version => version,
    }
}

// 0, one above the last given, or a number given before and mostly gone.
fn other_of(d: Dice, till: u32, notes: &[u32]) -> u32 {
    let last = trial_keeper::last(notes, till);
    match d.pick(36, 4) {
        0 => 0,
        1 => last.wrapping_add(1),
        _ => d.pick(40, last).wrapping_add(1),
    }
}

// Mostly a held version.
fn version_of(d: Dice, till: u32, notes: &[u32]) -> u32 {
    if d.pick(32, 8) == 0 {
        other_of(d, till, notes)
    } else {
        held_of(d, till, notes)
    }
}

fn retire(
    c: Capacities,
    d: Dice,
    pool: &mut [u8],
    table: &mut [u32],
    notes: &mut [u32],
    counts: &mut [u64],
) {
    let till = trial_choice::till_of(c, d);
    let version = version_of(d, till, notes);
    let user = trial_choice::user_of(d);
    trial_calls::retire(c, user, till, version, pool, table, notes, counts);
}

// Any rights, of any user.
fn set_rights(
    c: Capacities,
    d: Dice,
    pool: &[u8],
    table: &mut [u32],
    notes: &mut [u32],
    counts: &mut [u64],
) {
    let rights = Rights {
        list: d.pick(40, 2) == 1,
        back_up: d.pick(41, 2) == 1,
        restore: d.pick(42, 2) == 1,
        retire: d.pick(43, 2) == 1,
    };
    let user = trial_choice::user_of(d);
    let till = trial_choice::till_of(c, d);
    trial_calls::set_rights(
        c,
        user,
        d.pick(32, 10),
        till,
        rights,
        pool,
        table,
        notes,
        counts,
    );
}

// The whole output, a byte too few, or just enough.
fn room_of(d: Dice, bytes: u32) -> usize {
    match d.pick(20, 4) {
        0 => trial_calls::ROOM,
        1 => bytes.saturating_sub(1) as usize,
        _ => bytes as usize,
    }
}

fn restore(
    c: Capacities,
    d: Dice,
    pool: &[u8],
    table: &[u32],
    images: &[u8],
    notes: &[u32],
    counts: &mut [u64],
) {
    let till = trial_choice::till_of(c, d);
    let version = version_of(d, till, notes);
    let room = room_of(d, trial_keeper::length(notes, till, version));
    let user = trial_choice::user_of(d);
    trial_calls::restore(
        c, user, till, version, room, pool, table, images, notes, counts,
    );
}

fn list(c: Capacities, d: Dice, pool: &[u8], table: &[u32], notes: &[u32], counts: &mut [u64]) {
    let user = trial_choice::user_of(d);
    trial_calls::list(
        c,
        user,
        trial_choice::till_of(c, d),
        pool,
        table,
        notes,
        counts,
    );
    trial_calls::tally_as(user, pool, table, counts);
}

// A version comes, or some do, or one goes, or a user gets other rights. At the last three nothing changes, though a damaged store is mended again.
pub fn turn(
    c: Capacities,
    d: Dice,
    pool: &mut [u8],
    table: &mut [u32],
    images: &mut [u8],
    notes: &mut [u32],
    counts: &mut [u64],
) {
    let kind = d.pick(0, 32);
    match kind {
        0..=10 => back_up(c, d, pool, table, images, notes, counts),
        11..=12 => trial_closing::drawn::close(c, d, pool, table, images, notes, counts),
        13..=20 => retire(c, d, pool, table, notes, counts),
        21..=22 => set_rights(c, d, pool, table, notes, counts),
        23..=29 => restore(c, d, pool, table, images, notes, counts),
        30 => list(c, d, pool, table, notes, counts),
        _ => trial_unsound::damaged(d, pool, table, counts),
    }
    if kind < 23 {
        crate::checks::all(c, pool, table, images, notes, counts);
    }
}
