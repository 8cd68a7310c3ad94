// Lengths of parts that lie end to end.
#![tactic(auto)]

ghost use Rattle.std.specs.Prelude.{◌≡◌, ◌≤◌, length, take};
ghost use Rattle.lists.specs.Lists.{total};

// The first lengths together: where the next part begins. So few lengths of 32 bits do not wrap in 64.
pub fn sum_to(lengths: &[u32], count: usize) -> usize
    requires { (count ≤ length lengths.now) × (count ≤ 16) }
    ensures { (result ≡ total (λ n. n) (take count lengths.now)) × (result ≤ 68719476720) }
{
    let mut sum: usize = 0;
    for n in &lengths[..count] {
        sum += *n as usize;
    }
    sum
}
