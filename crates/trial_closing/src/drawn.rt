// A drawn closing: up to four images, perhaps of the same till, now and then with one among them that is refused.
use layout::Capacities;
use trial_draw::dice::Dice;

// Other numbers than those of the turns that follow.
fn seeded(d: Dice) -> Dice {
    Dice {
        state: d.drawn(1, 4294967291) + 1,
    }
}

// The image at a place follows those that are there; where the next one starts.
fn draw_one(
    c: Capacities,
    d: Dice,
    at: usize,
    from: usize,
    tills: &mut [u32],
    lengths: &mut [u32],
    sent: &mut [u8],
) -> usize {
    if sent.len() < from {
        return from;
    }
    let bytes = trial_choice::draw_image(c, d, &mut sent[from..]);
    trial_keeper::put_note(tills, at, trial_choice::till_of(c, d));
    trial_keeper::put_note(lengths, at, bytes as u32);
    from.wrapping_add(bytes)
}

// So many images; how many bytes they have.
fn draw_each(
    c: Capacities,
    d: Dice,
    images: usize,
    tills: &mut [u32],
    lengths: &mut [u32],
    sent: &mut [u8],
) -> usize {
    let mut e = seeded(d);
    let mut bytes = 0;
    for i in 0..images {
        e = e.rolled();
        bytes = draw_one(c, e, i, bytes, tills, lengths, sent);
    }
    bytes
}

pub fn close(
    c: Capacities,
    d: Dice,
    pool: &mut [u8],
    table: &mut [u32],
    images: &mut [u8],
    notes: &mut [u32],
    counts: &mut [u64],
) {
    let mut tills = [0u32; 4];
    let mut lengths = [0u32; 4];
    let mut sent = [0u8; 5632];
    let n = d.drawn(5, 4) as usize + 1;
    let bytes = draw_each(c, d, n, &mut tills, &mut lengths, &mut sent);
    crate::back_up_first(
        c,
        trial_choice::user_of(d),
        n,
        bytes,
        &tills,
        &lengths,
        &sent,
        pool,
        table,
        images,
        notes,
        counts,
    );
}
