// Every held version of every till restored and compared, the tills listed, the store tallied: as the owner.
use layout::Capacities;

// With just enough room; 0 is no version.
fn restored(
    c: Capacities,
    till: u32,
    version: u32,
    pool: &[u8],
    table: &[u32],
    images: &[u8],
    notes: &[u32],
    counts: &mut [u64],
) {
    if version != 0 {
        let room = trial_keeper::length(notes, till, version) as usize;
        trial_calls::restore(
            c, 0, till, version, room, pool, table, images, notes, counts,
        );
    }
}

// Every held version of a till, place by place.
fn each_version(
    c: Capacities,
    till: u32,
    pool: &[u8],
    table: &[u32],
    images: &[u8],
    notes: &[u32],
    counts: &mut [u64],
) {
    for place in 0..trial_keeper::PLACES {
        let version = trial_keeper::number_at(notes, till, place);
        restored(c, till, version, pool, table, images, notes, counts);
    }
}

fn each_till(
    c: Capacities,
    pool: &[u8],
    table: &[u32],
    images: &[u8],
    notes: &[u32],
    counts: &mut [u64],
) {
    for till in 0..c.tills {
        trial_calls::list(c, 0, till, pool, table, notes, counts);
        each_version(c, till, pool, table, images, notes, counts);
    }
}

pub fn all(
    c: Capacities,
    pool: &[u8],
    table: &[u32],
    images: &[u8],
    notes: &[u32],
    counts: &mut [u64],
) {
    each_till(c, pool, table, images, notes, counts);
    trial_calls::tally(c, pool, table, counts);
}
