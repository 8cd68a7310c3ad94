// One chunk of 64 bytes taken into the five words, as the definition in crates/sha1/specs says.
#![tactic(auto)]

ghost use Rattle.std.specs.Prelude.{◌≡◌, ℕ, ◌+◌, ◌<◌, ◌≤◌, List, ◌++◌, length, take, drop, replicate};
ghost use Rattle.sha1_definition.specs.Sha1.{choose, parity, majority, f, k, rotl, schedule, turned, rounds, added, compress};
ghost use Rattle.sha1_definition.specs.Sha1 as definition;

use sha1_definition::State;

fn choose(b: u32, c: u32, d: u32) -> u32
    ensures { result ≡ choose b c d }
{
    (b & c) | (!b & d)
}

fn parity(b: u32, c: u32, d: u32) -> u32
    ensures { result ≡ parity b c d }
{
    b ^ c ^ d
}

fn majority(b: u32, c: u32, d: u32) -> u32
    ensures { result ≡ majority b c d }
{
    (b & c) | (b & d) | (c & d)
}

// Kept: 01's page asks for rotation as a helper.
fn rotate_left(x: u32, n: u32) -> u32
    requires { (0 < n) × (n < 32) }
    ensures { result ≡ rotl n x }
{
    x.rotate_left(n)
}

// One round, with its value of f, its word and its constant.
fn turn(s: State, ft: u32, wt: u32, kt: u32) -> State
    ensures { result ≡ turned ft wt kt s }
{
    let x = rotate_left(s.a, 5).wrapping_add(ft);
    State {
        a: x.wrapping_add(s.e).wrapping_add(wt).wrapping_add(kt),
        b: s.a,
        c: rotate_left(s.b, 30),
        d: s.c,
        e: s.d,
    }
}

// Twenty rounds, with their function of three words and their constant.
fn twenty_rounds<F: Fn(u32, u32, u32) -> u32>(
    h: State,
    words: &[u32; 80],
    from: usize,
    kt: u32,
    mix: F,
) -> State
    requires callable { F.IsAlwaysCallable mix }
    requires mixes { (t b c d y : ℕ) → from ≤ t → t < from + 20 → F.post mix b c d y → y ≡ f t b c d }
    requires constant { (t : ℕ) → from ≤ t → t < from + 20 → kt ≡ k t }
    requires from_bound { from ≤ 60 }
    ensures { result ≡ rounds words.now from 20 h }
{
    let mut s = h;
    for t in from..from + 20 {
        s = turn(s, mix(s.b, s.c, s.d), words[t], kt);
    }
    s
}

fn all_rounds(h: State, words: &[u32; 80]) -> State
    ensures { result ≡ rounds words.now 0 80 h }
{
    let s1 = twenty_rounds(h, words, 0, 0x5a82_7999, choose);
    let s2 = twenty_rounds(s1, words, 20, 0x6ed9_eba1, parity);
    let s3 = twenty_rounds(s2, words, 40, 0x8f1b_bcdc, majority);
    twenty_rounds(s3, words, 60, 0xca62_c1d6, parity)
}

fn add(h: State, s: State) -> State
    ensures { result ≡ added h s }
{
    State {
        a: h.a.wrapping_add(s.a),
        b: h.b.wrapping_add(s.b),
        c: h.c.wrapping_add(s.c),
        d: h.d.wrapping_add(s.d),
        e: h.e.wrapping_add(s.e),
    }
}

// Words 0 to 15 of the schedule: the chunk's.
fn load(chunk: &[u8], words: &mut [u32])
    requires { (length chunk.now ≡ 64) × (length words.old ≡ 80) }
    ensures { words.new ≡ schedule chunk.now 16 ++ drop 16 words.old }
{
    for t in 0..16 {
        let at = 4 * t;
        words[t] = u32::from_be_bytes([chunk[at], chunk[at + 1], chunk[at + 2], chunk[at + 3]]);
    }
}

// Words 16 to 79.
fn extend(words: &mut [u32])
    requires { length words.old ≡ 80 }
    ensures { (chunk : List ℕ) → take 16 words.old ≡ schedule chunk 16 → words.new ≡ schedule chunk 80 }
{
    for t in 16..80 {
        let x = words[t - 3] ^ words[t - 8] ^ words[t - 14] ^ words[t - 16];
        words[t] = rotate_left(x, 1);
    }
}

// The words before the first chunk.
pub fn start() -> State
    ensures { result ≡ definition.start }
{
    State {
        a: 0x6745_2301,
        b: 0xefcd_ab89,
        c: 0x98ba_dcfe,
        d: 0x1032_5476,
        e: 0xc3d2_e1f0,
    }
}

pub fn compress(h: State, chunk: &[u8]) -> State
    requires { length chunk.now ≡ 64 }
    ensures { result ≡ compress h chunk.now }
{
    let mut words = [0u32; 80];
    load(chunk, &mut words);
    extend(&mut words);
    add(h, all_rounds(h, &words))
}

// A chunk of 64 times one byte, which need not lie anywhere.
pub fn compress_filled(h: State, byte: u8) -> State
    ensures { result ≡ compress h (replicate 64 byte) }
{
    compress(h, &[byte; 64])
}
