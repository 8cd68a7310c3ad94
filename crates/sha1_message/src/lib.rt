// Digests of whole messages, and of messages whose chunks were taken one by one.
#![tactic(auto)]

ghost use Rattle.std.specs.Prelude.{◌≡◌, ◌-◌, ◌*◌, ◌<◌, [], ◌∷◌, ◌++◌, length, take, replicate};
ghost use Rattle.lists.specs.Decides.{Decides};
ghost use Rattle.sha1_definition.specs.Sha1.{bytes_of, absorbed, zeros, digest, digest_bytes};
ghost use Rattle.sha1_definition.specs.Chunks.{finished};

use sha1_definition::{Digest, State};

// The last chunk: its last 8 bytes are the length's two words.
fn with_length(chunk: [u8; 64], high: u32, low: u32) -> [u8; 64]
    ensures { result ≡ take 56 chunk ++ (bytes_of high ++ bytes_of low) }
{
    let mut out = chunk;
    out[56..60].copy_from_slice(&high.to_be_bytes());
    out[60..64].copy_from_slice(&low.to_be_bytes());
    out
}

// A message's last bytes, the byte 128 and zeros.
fn padded(tail: &[u8]) -> [u8; 64]
    requires { length tail.now < 64 }
    ensures { result ≡ tail.now ++ (128 ∷ replicate (63 - length tail.now) 0) }
{
    let mut out = [0u8; 64];
    out[..tail.len()].copy_from_slice(tail);
    out[tail.len()] = 128;
    out
}

// As many chunks of 64 bytes as there are; what is left over is left for `finish`.
pub fn absorb_all(h: State, bytes: &[u8]) -> State
    ensures { result ≡ absorbed h bytes.now }
{
    let mut s = h;
    for chunk in bytes.chunks_exact(64) {
        s = sha1_chunk::compress(s, chunk);
    }
    s
}

// Chunks that are all one byte, which need not lie anywhere.
pub fn absorb_same(h: State, byte: u8, chunks: u64) -> State
    ensures { result ≡ absorbed h (replicate (64 * chunks) byte) }
{
    let mut s = h;
    for _ in 0..chunks {
        s = sha1_chunk::compress_filled(s, byte);
    }
    s
}

// The last bytes of a message, fewer than 64, with the padding: one chunk or two.
fn close(h: State, tail: &[u8], high: u32, low: u32) -> State
    requires { length tail.now < 64 }
    ensures { result ≡ absorbed h (tail.now ++ (128 ∷ (replicate (zeros (length tail.now)) 0 ++ (bytes_of high ++ bytes_of low)))) }
{
    let chunk = padded(tail);
    if tail.len() < 56 {
        let last = with_length(chunk, high, low);
        sha1_chunk::compress(h, &last)
    } else {
        let s = sha1_chunk::compress(h, &chunk);
        let last = with_length([0u8; 64], high, low);
        sha1_chunk::compress(s, &last)
    }
}

// The digest of a message: `chunks` chunks, after which the words are `h`, and then `rest`, of any length.
pub fn finish(h: State, rest: &[u8], chunks: u64) -> Digest
    ensures { result ≡ finished h rest.now chunks }
{
    let n = rest.len();
    let whole = n / 64;
    let total = chunks.wrapping_add(whole as u64);
    let high = (total / 8388608 % 4294967296) as u32;
    let low = ((total % 8388608) * 512 + ((n % 64) as u64) * 8) as u32;
    let s = absorb_all(h, rest);
    let at = whole * 64;
    let r = close(s, &rest[at..], high, low);
    Digest {
        h0: r.a,
        h1: r.b,
        h2: r.c,
        h3: r.d,
        h4: r.e,
    }
}

// The digest of a message of whole chunks.
pub fn finish_whole(h: State, chunks: u64) -> Digest
    ensures { result ≡ finished h [] chunks }
{
    finish(h, b"", chunks)
}

pub fn sha1(message: &[u8]) -> Digest
    ensures { result ≡ digest message.now }
{
    finish(sha1_chunk::start(), message, 0)
}

// A message of `chunks` chunks that are all one byte.
pub fn filled(byte: u8, chunks: u64) -> Digest
    ensures { result ≡ digest (replicate (64 * chunks) byte) }
{
    let s = absorb_same(sha1_chunk::start(), byte, chunks);
    finish_whole(s, chunks)
}

pub fn digest_bytes(d: Digest) -> [u8; 20]
    ensures { result ≡ digest_bytes d }
{
    let mut out = [0; 20];
    out[..4].copy_from_slice(&d.h0.to_be_bytes());
    out[4..8].copy_from_slice(&d.h1.to_be_bytes());
    out[8..12].copy_from_slice(&d.h2.to_be_bytes());
    out[12..16].copy_from_slice(&d.h3.to_be_bytes());
    out[16..20].copy_from_slice(&d.h4.to_be_bytes());
    out
}

// Whether the part is the digest's 20 bytes.
pub fn same_digest(d: Digest, part: &[u8]) -> bool
    ensures { Decides result (part.now ≡ digest_bytes d) }
{
    check::same(part, &digest_bytes(d))
}
