// The first walk through a stream: it looks for what is to be refused and writes nothing.
#![tactic(auto)]

ghost use Rattle.std.specs.Prelude.{◌≡◌, ◌≤◌, ◌^◌, min, length, drop, ltb};
ghost use Rattle.model.specs.Measures.{parts_for};
ghost use Rattle.refusals.specs.Refusals.{refusal_of};
ghost use Rattle.stream.specs.Stream.{read_block, read_blocks, read_group, read_body};
ghost use Rattle.stream_check.specs.Answers.{ReadsTo};

use numbers::Block;
use refusals::Refusal;
use stream::Group;

// A block, by its bit, where `left` bytes of the image are left; answers the place behind it.
fn check_block(stream: &[u8], at: usize, bit: u32, left: usize) -> Result<usize, Refusal>
    requires { at ≤ length stream.now }
    ensures { ReadsTo (read_block bit left (drop at stream.now)) stream.now result }
{
    if bit == 0 {
        return Ok(at);
    }
    if stream.len() - at < Block::BYTES {
        return Err(Refusal::StreamSize);
    }
    let end = at + Block::BYTES;
    if blocks::all_zero(&stream[at..end]) {
        return Err(Refusal::StreamBits);
    }
    let after = at + left.min(Block::BYTES);
    if !blocks::all_zero(&stream[after..end]) {
        return Err(Refusal::StreamBits);
    }
    Ok(end)
}

// The eight blocks of a group, by the bits of its map.
fn check_blocks(stream: &[u8], from: usize, bits: u32, bytes: usize) -> Result<usize, Refusal>
    requires { from ≤ length stream.now }
    ensures { ReadsTo (read_blocks 8 bits bytes (drop from stream.now)) stream.now result }
{
    let mut at = from;
    let mut m = bits;
    let mut left = bytes;
    for i in 0..Group::BLOCKS {
        at = check_block(stream, at, m % 2, left)?;
        m /= 2;
        left = left.saturating_sub(Block::BYTES);
    }
    Ok(at)
}

// Whether a map has bits on blocks only that are there.
fn all_there(bits: u32, left: usize) -> bool
    ensures { result ≡ ltb bits (2 ^ min 8 (parts_for 64 left)) }
{
    let near = left.min(Group::BYTES);
    bits < 1u32 << near.div_ceil(Block::BYTES)
}

// A group: its bit map byte, then its blocks.
fn check_group(stream: &[u8], at: usize, left: usize) -> Result<usize, Refusal>
    ensures { ReadsTo (read_group left (drop at stream.now)) stream.now result }
{
    if stream.len() <= at {
        return Err(Refusal::StreamSize);
    }
    let bits = u32::from(stream[at]);
    if !all_there(bits, left) {
        return Err(Refusal::StreamBits);
    }
    check_blocks(stream, at + 1, bits, left)
}

// A reader: the stream, and how far it has come. Each function over it is thin: its work is done on the slice and the place.
#[derive(Clone, Copy)]
pub struct Reader<'a> {
    pub stream: &'a [u8],
    pub at: usize,
}

// A reader that has come to a place of a stream.
pub fn reader_at<'a>(stream: &'a [u8], at: usize) -> Reader<'a>
    ensures { (result.stream ≡ stream.entry) × (result.at ≡ at) }
{
    Reader { stream, at }
}

// The group that the reader comes to next.
pub fn next_group<'a>(r: Reader<'a>, left: usize) -> Result<usize, Refusal>
    ensures { ReadsTo (read_group left (drop r.entry.at r.entry.stream.now)) r.entry.stream.now result }
{
    check_group(r.stream, r.at, left)
}

// The same with no reader in its signature.
pub fn group_at(stream: &[u8], at: usize, left: usize) -> Result<usize, Refusal>
    ensures { ReadsTo (read_group left (drop at stream.now)) stream.now result }
{
    next_group(reader_at(stream, at), left)
}

// The first walk: the refusal of all that comes after the length of an image of n bytes.
pub fn check_body(stream: &[u8], n: usize) -> Result<(), Refusal>
    requires { 4 ≤ length stream.now }
    ensures { refusal_of result ≡ (read_body n (drop 4 stream.now)).refusal }
{
    let mut at = 4;
    for start in (0..n).step_by(Group::BYTES) {
        at = group_at(stream, at, n - start)?;
    }
    if at < stream.len() {
        return Err(Refusal::StreamSize);
    }
    Ok(())
}
