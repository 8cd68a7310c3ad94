// One image among those of a call at closing: its answer and its bytes.
#![tactic(auto)]

ghost use Rattle.std.specs.Prelude.{◌≡◌, ◌+◌, ◌≤◌, min, get_or};

use answers::BackedUp;

// The answer to the image at a place.
pub fn answer_at(refusals: &[u32], versions: &[u32], at: usize) -> BackedUp
    ensures { (result.refusal ≡ get_or refusals.now at 0) × (result.version ≡ get_or versions.now at 0) }
{
    BackedUp {
        refusal: trial_keeper::note_at(refusals, at),
        version: trial_keeper::note_at(versions, at),
    }
}

// Where the image ends that starts at `from`, which is not past the bytes sent.
pub fn end_of(lengths: &[u32], at: usize, from: usize, bytes: usize) -> usize
    requires { from ≤ bytes }
    ensures { (result ≡ min (from + get_or lengths.now at 0) bytes) × (from ≤ result) × (result ≤ bytes) }
{
    let length = trial_keeper::note_at(lengths, at) as usize;
    if length < bytes - from {
        from + length
    } else {
        bytes
    }
}
