// Parts of lent slices: copied, and words moved down.
#![tactic(auto)]

ghost use Rattle.std.specs.Prelude.{◌≡◌, ◌++◌, ℕ, ◌+◌, ◌≤◌, ◌<◌, length, take, drop, replicate};

// The source's words to the front of the destination.
pub fn copy_in<T: Copy>(src: &[T], dst: &mut [T])
    requires { length src.now ≤ length dst.old }
    ensures { dst.new ≡ src.now ++ drop (length src.now) dst.old }
{
    dst[..src.len()].copy_from_slice(src);
}

// The first `width` words go, the others move down, and as many at the end are cleared.
pub fn shift(part: &mut [u32], width: usize)
    requires { width ≤ length part.old }
    ensures { part.new ≡ drop width part.old ++ replicate width 0 }
{
    let n = part.len() - width;
    part.copy_within(width.., 0);
    part[n..].fill(0);
}
