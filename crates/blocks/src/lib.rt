// Blocks of bytes on parts of lent slices: tested, compared, copied and cleared; and the blocks of an image, the last filled up with zeros.
#![tactic(auto)]

ghost use Rattle.std.specs.Prelude.{◌≡◌, ◌++◌, ℕ, ◌+◌, ◌*◌, ◌%◌, ◌≤◌, ◌<◌, min, eqb, length, take, drop, replicate};
ghost use Rattle.std.specs.List.{list_all, zip};
ghost use Rattle.lists.specs.Lists.{every, all_zero, same_numbers};
ghost use Rattle.lists.specs.Rows.{fill};
ghost use Rattle.model.specs.Image.{block_from};

use numbers::{Block, Cell};

// How many bytes differ. No exit from the loop and a count of 8 bits, so that the compiler takes many bytes at a time.
fn differing(a: &[u8], b: &[u8]) -> u8
    requires { (length a.now ≤ 64) × (length b.now ≡ length a.now) }
    ensures { eqb result 0 ≡ same_numbers a.now b.now }
{
    let mut count: u8 = 0;
    for (i, x) in a.iter().enumerate() {
        count += u8::from(*x != b[i]);
    }
    count
}

// Whether two pieces of 64 bytes are the same. The first byte settles most pairs.
fn piece_same(a: &[u8; 64], b: &[u8; 64]) -> bool
    ensures { result ≡ same_numbers a.now b.now }
{
    a[0] == b[0] && differing(a, b) == 0
}

// Whether all pieces are the same as one.
fn pieces_are(pieces: &[[u8; 64]], row: &[u8; 64]) -> bool
    ensures { result ≡ list_all (λ piece. same_numbers piece row.now) pieces.now }
{
    pieces.iter().all(|piece| piece_same(piece, row))
}

// Whether all bytes are the given one: in pieces of 64 bytes, and what is left.
pub fn filled(part: &[u8], byte: u8) -> bool
    ensures { result ≡ every (λ x. eqb x byte) part.now }
{
    let row = [byte; 64];
    let (pieces, rest) = part.as_chunks();
    pieces_are(pieces, &row) && differing(rest, &row[..rest.len()]) == 0
}

// The same of whole pieces: nothing is left, so that a cell of one piece is one test.
pub fn pieces_filled(part: &[u8], byte: u8) -> bool
    requires { (64 ≤ length part.now) × (length part.now % 64 ≡ 0) }
    ensures { result ≡ every (λ x. eqb x byte) part.now }
{
    let (pieces, _) = part.as_chunks();
    pieces_are(pieces, &[byte; 64])
}

pub fn all_zero(part: &[u8]) -> bool
    ensures { result ≡ all_zero part.now }
{
    filled(part, 0)
}

pub fn pieces_zero(part: &[u8]) -> bool
    requires { (64 ≤ length part.now) × (length part.now % 64 ≡ 0) }
    ensures { result ≡ all_zero part.now }
{
    pieces_filled(part, 0)
}

// Whether the pieces are the same, each with its like.
fn pairs_same(a: &[[u8; 64]], b: &[[u8; 64]]) -> bool
    requires { length a.now ≡ length b.now }
    ensures { result ≡ list_all (λ p. same_numbers p.0 p.1) (zip a.now b.now) }
{
    a.iter().zip(b).all(|(x, y)| piece_same(x, y))
}

// In pieces of 64 bytes, and what is left.
pub fn same(a: &[u8], b: &[u8]) -> bool
    ensures { result ≡ same_numbers a.now b.now }
{
    if a.len() != b.len() {
        return false;
    }
    let (pieces, rest) = a.as_chunks();
    let (others, end) = b.as_chunks();
    pairs_same(pieces, others) && differing(rest, end) == 0
}

// n bytes of the source, from `from` on, to the output, from `to` on: the output's part from there on is lent to the byte copier.
pub fn copy_part(src: &[u8], from: usize, out: &mut [u8], to: usize, n: usize)
    requires { (from + n ≤ length src.now) × (to + n ≤ length out.old) }
    ensures { out.new ≡ take to out.old ++ (take n (drop from src.now) ++ drop (to + n) out.old) }
{
    out[to..to + n].copy_from_slice(&src[from..from + n]);
}

// The first n bytes of a cell go straight to a block's place in the output.
pub fn copy_block(pool: &[u8], cell: Cell, out: &mut [u8], block: Block, n: usize, bytes: usize)
    requires { (bytes ≤ 512) × (cell.0 * bytes + n ≤ length pool.now) × (block.0 * bytes + n ≤ length out.old) }
    ensures { out.new ≡ take (block.0 * bytes) out.old ++ (take n (drop (cell.0 * bytes) pool.now) ++ drop (block.0 * bytes + n) out.old) }
{
    copy_part(pool, cell.byte(bytes), out, block.byte(bytes), n);
}

// The first n bytes of a block's place in the output become one byte, as of a block that has no cell.
pub fn fill_block(out: &mut [u8], block: Block, n: usize, byte: u8, bytes: usize)
    requires { (bytes ≤ 512) × (block.0 * bytes + n ≤ length out.old) }
    ensures { out.new ≡ take (block.0 * bytes) out.old ++ (replicate n byte ++ drop (block.0 * bytes + n) out.old) }
{
    let to = block.byte(bytes);
    out[to..to + n].fill(byte);
}

pub fn clear_cell(pool: &mut [u8], c: Cell, bytes: usize)
    requires { (bytes ≤ 512) × (c.0 * bytes + bytes ≤ length pool.old) }
    ensures { pool.new ≡ take (c.0 * bytes) pool.old ++ (replicate bytes 0 ++ drop (c.0 * bytes + bytes) pool.old) }
{
    let at = c.byte(bytes);
    pool[at..at + bytes].fill(0);
}

// Whether a block equals a part, filled up with zeros.
pub fn same_padded(part: &[u8], block: &[u8]) -> bool
    requires { length part.now ≤ length block.now }
    ensures { result ≡ same_numbers block.now (fill (length block.now) part.now) }
{
    let (front, end) = block.split_at(part.len());
    same(front, part) && all_zero(end)
}

// The image's block at a byte, as far as the image goes.
fn block_part(image: &[u8], at: usize, bytes: usize) -> &[u8]
    requires { (at ≤ 131072) × (bytes ≤ 512) }
    ensures { (length result.now ≤ bytes) × (fill bytes result.now ≡ block_from bytes image.now at) }
{
    let start = image.len().min(at);
    let end = image.len().min(at + bytes);
    &image[start..end]
}

// Whether the image's block at a byte is all zero.
pub fn block_zero(image: &[u8], at: usize, bytes: usize) -> bool
    requires { (at ≤ 131072) × (bytes ≤ 512) }
    ensures { result ≡ all_zero (block_from bytes image.now at) }
{
    all_zero(block_part(image, at, bytes))
}

// Whether two whole blocks are the same, piece by piece.
fn pieces_same(a: &[u8], b: &[u8]) -> bool
    requires { (length a.now ≡ length b.now) × (64 ≤ length a.now) × (length a.now % 64 ≡ 0) }
    ensures { result ≡ same_numbers a.now b.now }
{
    let (pieces, _) = a.as_chunks();
    let (others, _) = b.as_chunks();
    pairs_same(pieces, others)
}

// Whether the image's block at a byte, which the image's end may cut, equals a cell. Most blocks are not cut.
pub fn block_same(image: &[u8], at: usize, cell: &[u8], bytes: usize) -> bool
    requires { (at ≤ 131072) × (64 ≤ bytes) × (bytes ≤ 512) × (bytes % 64 ≡ 0) × (length cell.now ≡ bytes) }
    ensures { result ≡ same_numbers cell.now (block_from bytes image.now at) }
{
    let end = at + bytes;
    if end <= image.len() {
        return pieces_same(cell, &image[at..end]);
    }
    same_padded(block_part(image, at, bytes), cell)
}

// The image's block at a byte goes into a cell.
pub fn put_block(image: &[u8], at: usize, cell: &mut [u8], bytes: usize)
    requires { (at ≤ 131072) × (bytes ≤ 512) × (length cell.old ≡ bytes) }
    ensures { cell.new ≡ block_from bytes image.now at }
{
    let part = block_part(image, at, bytes);
    let k = part.len();
    cell[..k].copy_from_slice(part);
    cell[k..].fill(0);
}
