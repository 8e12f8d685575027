//! The numbers that a load draws.

ghost use Rattle.std.specs.Prelude.{◌≡◌, ◌≤◌};
ghost use Rattle.workload.specs.Numbers.{drawn_after};

/// Draws numbers up to 65,536, each from the one before it.
#[derive(Drop)]
pub struct Numbers {
    /// The number drawn last; the seed, where none is drawn.
    pub last: u32,
    ghost in_range: { last ≤ 65536 },
}

impl Numbers {
    /// The numbers of a seed; none is drawn yet.
    pub fn from_seed(seed: u32) -> Numbers
        requires { seed ≤ 65536 }
        ensures { result.last ≡ seed }
    {
        Numbers { last: seed }
    }

    /// Draws the next number.
    pub fn next(&mut self) -> u32
        ensures drawn { result ≡ drawn_after self.old.last }
        ensures last { self.new.last ≡ result }
    {
        self.last = (75 * self.last + 74) % 65537;
        self.last
    }
}
