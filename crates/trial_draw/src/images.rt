// Images made from letters. A letter is a block: 0 is the null block, 1 is null up to its last byte, 2k and 2k + 1 differ in their last byte only, and 9 is
// the blank block.
ghost use Rattle.std.specs.Prelude.{◌≡◌, ◌⊎◌, ℕ, ◌≤◌, ◌<◌, ◌/◌, length, get_or};

use crate::dice::{Dice, mixed};

// A seed gives each block its letter, but for one that is changed. If it repeats, all segments have the letters of the first.
#[derive(Clone, Copy)]
pub struct Plan {
    pub seed: u64,
    pub changed: usize,
    pub letter: u8,
    pub repeats: bool,
}

pub fn plan_of(d: Dice) -> Plan
    ensures { (1 ≤ result.seed) × (result.seed ≤ 4) × (result.changed < 24) × (result.letter ≤ 9) }
{
    Plan {
        seed: 1 + d.drawn(16, 4),
        changed: d.drawn(24, 24) as usize,
        letter: letter_of(d.drawn(32, 256)),
        repeats: d.drawn(40, 4) == 0,
    }
}

// Letters 0 to 9; one in four is 0.
fn letter_of(x: u64) -> u8
    ensures { result ≤ 9 }
{
    let n = x % 12;
    if n < 10 { n as u8 } else { 0 }
}

fn letter_at(p: Plan, block: usize) -> u8
    ensures { p.letter ≤ 9 → result ≤ 9 }
{
    if block == p.changed {
        return p.letter;
    }
    let n = if p.repeats { block % 8 } else { block } as u64;
    letter_of(mixed(mixed(p.seed ^ (n << 20))))
}

fn byte_of(letter: u8, at: usize) -> u8
    ensures { letter ≤ 9 → (result ≤ 8) ⊎ (result ≡ 255) }
{
    if letter == 9 {
        255
    } else if at == 63 {
        letter
    } else {
        letter / 2
    }
}

pub fn fill(image: &mut [u8], p: Plan)
    ensures { (k : ℕ) → k < length image.old → p.letter ≤ 9 → (get_or image.new k 0 ≤ 8) ⊎ (get_or image.new k 0 ≡ 255) }
{
    for (i, byte) in image.iter_mut().enumerate() {
        *byte = byte_of(letter_at(p, i / 64), i % 64);
    }
}

// Each letter fills a block with itself; blocks past the last letter are null.
pub fn spell(image: &mut [u8], letters: &[u8])
    ensures { (k : ℕ) → k < length image.old → get_or image.new k 0 ≡ get_or letters.now (k / 64) 0 }
{
    for (i, byte) in image.iter_mut().enumerate() {
        *byte = letter_or_null(letters, i / 64);
    }
}

fn letter_or_null(letters: &[u8], block: usize) -> u8
    ensures { result ≡ get_or letters.now block 0 }
{
    letters.get(block).copied().unwrap_or(0)
}
