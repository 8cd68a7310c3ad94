// An image's stream is written to a lent output: the length in four bytes, then for each eight blocks a bit map byte and the blocks whose bit stands.
#![tactic(auto)]

ghost use Rattle.std.specs.Prelude.{◌≡◌, not, cond, ◌+◌, ◌*◌, ◌≤◌, ◌<◌, length};
ghost use Rattle.lists.specs.Lists.{keep};
ghost use Rattle.lists.specs.Rows.{joined, rows};
ghost use Rattle.lists.specs.Masks.{mask_of};
ghost use Rattle.model.specs.Image.{block_from, blocks_from, image_segments};
ghost use Rattle.model.specs.Sound.{is_filled};
ghost use Rattle.stream.specs.Stream.{four_bytes, group_bytes, stream_of, write_stream};
ghost use Rattle.stream.specs.Pieces.{block_part};
ghost use Rattle.stream_write.specs.Answers.{write_result};
ghost use Rattle.lists.specs.Written.{written};

use numbers::Block;
use refusals::Refusal;
use stream::Group;

// 0 for a null block, else 1.
fn block_mark(image: &[u8], at: usize) -> u32
    requires { at ≤ 131072 }
    ensures { (result ≡ cond (is_filled (block_from 64 image.now at)) 1 0) × (result ≤ 1) }
{
    u32::from(!blocks::block_zero(image, at, Block::BYTES))
}

// The bit map of the eight blocks from a byte on, the last block first.
fn group_map(image: &[u8], from: usize) -> u32
    requires { from ≤ 65536 }
    ensures { (result ≡ mask_of is_filled (blocks_from 64 image.now from 8)) × (result < 256) }
{
    let mut m = 0;
    for i in (0..Group::BLOCKS).rev() {
        m = block_mark(image, from + i * Block::BYTES) + 2 * m;
    }
    m
}

// How many bytes a group takes.
fn group_length(image: &[u8], from: usize) -> usize
    requires { from ≤ 65536 }
    ensures { (result ≡ length (group_bytes (blocks_from 64 image.now from 8))) × (result ≤ 513) }
{
    let ones = group_map(image, from).count_ones();
    1 + Block::BYTES * ones as usize
}

// How many bytes the stream takes.
fn stream_length(image: &[u8]) -> usize
    requires { length image.now ≤ 65536 }
    ensures { (result ≡ length (stream_of image.now)) × (result ≤ 132100) }
{
    let mut n = 4;
    for from in (0..image.len()).step_by(Group::BYTES) {
        n += group_length(image, from);
    }
    n
}

// A block that is not null goes to the output, at a place; answers the place behind it.
fn put_if(image: &[u8], from: usize, output: &mut [u8], at: usize) -> usize
    requires { (from ≤ 131072) × (at + length (block_part (block_from 64 image.now from)) ≤ length output.old) }
    ensures { (result ≡ at + length (block_part (block_from 64 image.now from))) × (output.new ≡ written output.old at (block_part (block_from 64 image.now from))) }
{
    if blocks::block_zero(image, from, Block::BYTES) {
        return at;
    }
    let end = at + Block::BYTES;
    blocks::put_block(image, from, &mut output[at..end], Block::BYTES);
    end
}

// The group's blocks that are not null, one after the other.
fn put_blocks(image: &[u8], from: usize, output: &mut [u8], at: usize) -> usize
    requires { (from ≤ 65536) × (at + length (joined (keep is_filled (blocks_from 64 image.now from 8))) ≤ length output.old) }
    ensures { (result ≡ at + length (joined (keep is_filled (blocks_from 64 image.now from 8)))) × (output.new ≡ written output.old at (joined (keep is_filled (blocks_from 64 image.now from 8)))) }
{
    let mut to = at;
    for i in 0..Group::BLOCKS {
        to = put_if(image, from + i * Block::BYTES, output, to);
    }
    to
}

// A group: its bit map byte and its blocks.
fn put_group(image: &[u8], from: usize, output: &mut [u8], at: usize) -> usize
    requires { (from ≤ 65536) × (at + length (group_bytes (blocks_from 64 image.now from 8)) ≤ length output.old) }
    ensures { (result ≡ at + length (group_bytes (blocks_from 64 image.now from 8))) × (output.new ≡ written output.old at (group_bytes (blocks_from 64 image.now from 8))) }
{
    let map = group_map(image, from);
    output[at] = map as u8;
    put_blocks(image, from, output, at + 1)
}

// All groups, from byte 4 of the output on.
fn put_groups(image: &[u8], output: &mut [u8])
    requires { (length image.now ≤ 65536) × (4 + length (rows group_bytes (image_segments 64 8 image.now)) ≤ length output.old) }
    ensures { output.new ≡ written output.old 4 (rows group_bytes (image_segments 64 8 image.now)) }
{
    let mut at = 4;
    for from in (0..image.len()).step_by(Group::BYTES) {
        at = put_group(image, from, output, at);
    }
}

// A number in four bytes, lowest first, at the front of the output.
fn put_length(n: u32, output: &mut [u8])
    requires { 4 ≤ length output.old }
    ensures { output.new ≡ written output.old 0 (four_bytes n) }
{
    output[..4].copy_from_slice(&n.to_le_bytes());
}

// The whole stream, to the front of the output.
fn put_stream(image: &[u8], output: &mut [u8])
    requires { (length image.now ≤ 65536) × (length (stream_of image.now) ≤ length output.old) }
    ensures { output.new ≡ written output.old 0 (stream_of image.now) }
{
    put_length(image.len() as u32, output);
    put_groups(image, output);
}

// An image's stream, to the front of the output.
pub fn write_stream(image: &[u8], output: &mut [u8]) -> Result<u32, Refusal>
    requires { length image.now ≤ 65536 }
    ensures { write_result result output.new ≡ write_stream image.now output.old }
{
    let n = stream_length(image);
    if output.len() < n {
        return Err(Refusal::ShortOutput);
    }
    put_stream(image, output);
    Ok(n as u32)
}
