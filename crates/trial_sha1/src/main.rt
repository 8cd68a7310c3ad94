// Published messages and others, their digests in hexadecimal as sha1sum writes them (the file stdout has sha1sum's).
#![tactic(auto)]

use sha1_definition::{Digest, State};
use std::io;

fn print(rt: &impl Print, d: Digest) -> io::Result<()> {
    println!(rt;
        "{:08x}{:08x}{:08x}{:08x}{:08x}",
        d.h0, d.h1, d.h2, d.h3, d.h4
    )
}

// The four of RFC 3174, section 7.3, of which the last repeats 64 digits ten times; and the empty message.
fn published(rt: &impl Print) -> io::Result<()> {
    print(rt, sha1_message::sha1(b"abc"))?;
    print(
        rt,
        sha1_message::sha1(b"abcdbcdecdefdefgefghfghighijhijkijkljklmklmnlmnomnopnopq"),
    )?;
    print(rt, sha1_message::filled(b'a', 15625))?;
    print(rt, digits())?;
    print(rt, sha1_message::sha1(b""))
}

fn five_times(h: State, bytes: &[u8]) -> State {
    let s1 = sha1_message::absorb_all(h, bytes);
    let s2 = sha1_message::absorb_all(s1, bytes);
    let s3 = sha1_message::absorb_all(s2, bytes);
    let s4 = sha1_message::absorb_all(s3, bytes);
    sha1_message::absorb_all(s4, bytes)
}

fn digits() -> Digest {
    let line = b"0123456701234567012345670123456701234567012345670123456701234567";
    let half = five_times(sha1_chunk::start(), line);
    sha1_message::finish_whole(five_times(half, line), 10)
}

// Messages whose padding takes one chunk or two.
fn lengths(rt: &impl Print) -> io::Result<()> {
    let a = [b'a'; 128];
    print(rt, sha1_message::sha1(&a[..55]))?;
    print(rt, sha1_message::sha1(&a[..56]))?;
    print(rt, sha1_message::sha1(&a[..63]))?;
    print(rt, sha1_message::sha1(&a[..64]))?;
    print(rt, sha1_message::sha1(&a[..119]))?;
    print(rt, sha1_message::sha1(&a[..120]))?;
    print(rt, sha1_message::sha1(&a))
}

// Segments of the store: 512 zeros, whole and by chunks, and 256 times 255.
fn segments(rt: &impl Print) -> io::Result<()> {
    let zeros = [0u8; 512];
    print(rt, sha1_message::sha1(&zeros))?;
    print(rt, sha1_message::filled(0, 8))?;
    print(rt, sha1_message::filled(255, 4))
}

// Chunks from several places: b's, 255s that lie nowhere, a's; and three letters more.
fn scattered(rt: &impl Print) -> io::Result<()> {
    let a = [b'a'; 64];
    let b = [b'b'; 64];
    let s1 = sha1_chunk::compress(sha1_chunk::start(), &b);
    let s2 = sha1_chunk::compress_filled(s1, 255);
    let s3 = sha1_chunk::compress(s2, &a);
    print(rt, sha1_message::finish_whole(s3, 3))?;
    print(rt, sha1_message::finish(s3, b"abc", 3))
}

fn say(rt: &impl Print, ok: bool) -> io::Result<()> {
    if ok {
        println!(rt; "the same")
    } else {
        println!(rt; "not the same")
    }
}

// A digest's bytes, held to the digest, to another digest, and fewer of them.
fn compared(rt: &impl Print) -> io::Result<()> {
    let abc = sha1_message::sha1(b"abc");
    let bytes = sha1_message::digest_bytes(abc);
    say(rt, sha1_message::same_digest(abc, &bytes))?;
    say(
        rt,
        sha1_message::same_digest(sha1_message::sha1(b""), &bytes),
    )?;
    say(rt, sha1_message::same_digest(abc, b"abc"))
}

fn main(rt: HostRuntime) -> io::Result<()> {
    published(&rt)?;
    lengths(&rt)?;
    segments(&rt)?;
    scattered(&rt)?;
    compared(&rt)
}
