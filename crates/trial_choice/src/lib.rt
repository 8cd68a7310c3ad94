// The user, the till and the image of a drawn call.
#![tactic(auto)]

ghost use Rattle.std.specs.Prelude.{◌≡◌, ◌+◌, ◌≤◌, min};
ghost use Rattle.trial_keeper.specs.Notes.{most_bytes};

use layout::Capacities;
use trial_draw::dice::Dice;
use trial_draw::images;

// One time in sixteen a till that is not there.
pub fn till_of(c: Capacities, d: Dice) -> u32
    ensures { result ≤ c.tills }
{
    if d.pick(8, 16) == 0 {
        c.tills
    } else {
        d.pick(12, c.tills)
    }
}

// Mostly the owner; one time in four any, of which two are unknown.
pub fn user_of(d: Dice) -> u32
    ensures { result ≤ 9 }
{
    if d.pick(28, 4) == 0 {
        d.pick(16, 10)
    } else {
        0
    }
}

// None, a byte too many, full, or any length.
fn bytes_of(c: Capacities, d: Dice) -> usize
    ensures { result ≤ most_bytes c.blocks c.measures.bytes + 1 }
{
    let most = trial_keeper::image_bytes(c);
    match d.pick(48, 16) {
        0 => 0,
        1 => most + 1,
        2..=7 => most,
        _ => d.drawn(50, most as u64) as usize + 1,
    }
}

// How many bytes the image has that now stands at the front; more than there is room for: none.
pub fn draw_image(c: Capacities, d: Dice, image: &mut [u8]) -> usize
    ensures { (result ≤ most_bytes c.blocks c.measures.bytes + 1) × (result ≤ 65537) }
{
    let bytes = bytes_of(c, d);
    if bytes <= image.len() {
        images::fill(&mut image[0..bytes], images::plan_of(d));
    }
    bytes
}

// So many, or as many as there are.
pub fn at_most(n: usize, most: usize) -> usize
    ensures { (result ≡ min n most) × (result ≤ most) }
{
    n.min(most)
}
