// The draws: a linear congruential sequence.
ghost use Rattle.std.specs.Prelude.{◌≡◌, ◌<◌};
ghost use Rattle.vtl_demo.specs.Draws.{drawn, next_state, state};

const FIRST_STATE: u64 = 12_345;

const MULTIPLIER: u64 = 1_103_515_245;

const INCREMENT: u64 = 12_345;

const MODULUS: u64 = 2_147_483_648;

const DIVISOR: u64 = 65_536;

/// The sequence, behind some draws.
#[derive(Drop)]
pub(crate) struct Draws {
    state: u64,
    ghost bounded: { state < 2147483648 },
}

impl Draws {
    /// The sequence before its first draw.
    pub(crate) fn new() -> Draws
        ensures { result.state ≡ state 0 }
    {
        Draws { state: FIRST_STATE }
    }

    /// The next draw.
    pub(crate) fn draw(&mut self) -> u64
        ensures state { self.new.state ≡ next_state self.old.state }
        ensures drawn { result ≡ drawn self.new.state }
    {
        self.state = (MULTIPLIER * self.state + INCREMENT) % MODULUS;
        self.state / DIVISOR
    }
}
