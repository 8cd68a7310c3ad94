// Numbers that look drawn; a seed gives the same ones each time (xorshift).
ghost use Rattle.std.specs.Prelude.{◌≡◌, ◌≤◌, ◌<◌};
ghost use Rattle.trial_draw.specs.Mixed.{next_state};

#[derive(Clone, Copy)]
pub struct Dice {
    pub state: u64,
}

pub fn mixed(x: u64) -> u64
    ensures { result ≡ next_state x }
{
    let a = x ^ (x << 13);
    let b = a ^ (a >> 7);
    b ^ (b << 17)
}

impl Dice {
    pub fn rolled(self) -> Dice
        ensures { result.state ≡ next_state self.state }
    {
        Dice {
            state: mixed(self.state),
        }
    }

    // A number below n, made of the state's bits from `from` on; 0 if n is 0.
    pub fn drawn(self, from: u32, n: u64) -> u64
        requires { from < 64 }
        ensures { (result ≤ n) × (0 < n → result < n) }
    {
        if n == 0 { 0 } else { (self.state >> from) % n }
    }

    pub fn pick(self, from: u32, n: u32) -> u32
        requires { from < 64 }
        ensures { (result ≤ n) × (0 < n → result < n) }
    {
        self.drawn(from, u64::from(n)) as u32
    }
}
