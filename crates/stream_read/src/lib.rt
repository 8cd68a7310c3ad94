// A stream is read back into an image: a first walk through the stream (`stream_check`) looks for what is to be refused, a second one writes the image.
#![tactic(auto)]

ghost use Rattle.std.specs.Prelude.{◌≡◌, ◌+◌, ◌-◌, ◌≤◌, ◌<◌, length, take, drop};
ghost use Rattle.stream.specs.Stream.{length_in, read_block, read_blocks, read_group, read_body, delivered, read_stream};
ghost use Rattle.stream_read.specs.Answers.{Fills, read_result};

use numbers::Block;
use refusals::Refusal;
use stream::Group;

// A block of the image, by its bit: its bytes in the stream, or zeros. Answers the next place in the stream.
fn fill_block(stream: &[u8], at: usize, bit: u32, image: &mut [u8], to: usize) -> usize
    requires { (at ≤ length stream.now) × (to ≤ length image.old) × ((read_block bit (length image.old - to) (drop at stream.now)).refusal ≡ 0) }
    ensures { Fills (read_block bit (length image.old - to) (drop at stream.now)) stream.now result image.old to image.new }
{
    let n = Block::BYTES.min(image.len() - to);
    if bit == 0 {
        image[to..to + n].fill(0);
        return at;
    }
    blocks::copy_part(stream, at, image, to, n);
    at + Block::BYTES
}

// The eight blocks of a group, as far as the image goes.
fn fill_blocks(stream: &[u8], from: usize, bits: u32, image: &mut [u8], start: usize) -> usize
    requires { (from ≤ length stream.now) × (start ≤ length image.old) × ((read_blocks 8 bits (length image.old - start) (drop from stream.now)).refusal ≡ 0) }
    ensures { Fills (read_blocks 8 bits (length image.old - start) (drop from stream.now)) stream.now result image.old start image.new }
{
    let mut at = from;
    let mut m = bits;
    let mut to = start;
    for i in 0..Group::BLOCKS {
        at = fill_block(stream, at, m % 2, image, to);
        m /= 2;
        to += Block::BYTES.min(image.len() - to);
    }
    at
}

// A group's blocks, by the map at the place.
fn fill_group(stream: &[u8], at: usize, image: &mut [u8], to: usize) -> usize
    requires { (at ≤ length stream.now) × (to ≤ length image.old) × ((read_group (length image.old - to) (drop at stream.now)).refusal ≡ 0) }
    ensures { Fills (read_group (length image.old - to) (drop at stream.now)) stream.now result image.old to image.new }
{
    let bits = u32::from(stream[at]);
    fill_blocks(stream, at + 1, bits, image, to)
}

// The second walk: the whole image, from an accepted stream.
fn fill_image(stream: &[u8], image: &mut [u8])
    requires { (4 ≤ length stream.now) × ((read_body (length image.old) (drop 4 stream.now)).refusal ≡ 0) }
    ensures { image.new ≡ take (length image.old) (read_body (length image.old) (drop 4 stream.now)).bytes }
{
    let mut at = 4;
    for to in (0..image.len()).step_by(Group::BYTES) {
        at = fill_group(stream, at, image, to);
    }
}

// The number in the first four bytes, lowest first.
fn length_in(stream: &[u8]) -> u32
    requires { 4 ≤ length stream.now }
    ensures { result ≡ length_in stream.now }
{
    u32::from_le_bytes([stream[0], stream[1], stream[2], stream[3]])
}

// The image of a stream whose length n fits the output.
fn read_body(stream: &[u8], n: u32, output: &mut [u8]) -> Result<u32, Refusal>
    requires { (4 ≤ length stream.now) × (n ≤ length output.old) }
    ensures { read_result result output.new ≡ delivered n (read_body n (drop 4 stream.now)) output.old }
{
    let end = n as usize;
    stream_check::check_body(stream, end)?;
    fill_image(stream, &mut output[..end]);
    Ok(n)
}

// A stream's image goes to the front of the output; a refusal leaves the output untouched.
pub fn read_stream(stream: &[u8], output: &mut [u8]) -> Result<u32, Refusal>
    ensures { read_result result output.new ≡ read_stream stream.now output.old }
{
    if stream.len() < 4 {
        return Err(Refusal::StreamSize);
    }
    let n = length_in(stream);
    if n == 0 {
        return Err(Refusal::StreamLength);
    }
    if 65536 < n {
        return Err(Refusal::StreamLength);
    }
    if output.len() < n as usize {
        return Err(Refusal::ShortOutput);
    }
    read_body(stream, n, output)
}
