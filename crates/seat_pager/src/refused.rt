//! The calls of a pager that were refused.

ghost use Rattle.std.specs.Prelude.{◌≡◌, ◌≤◌, Some, None};
ghost use Rattle.retro_base.specs.Cause.{raised};

use retro_base::Refusal;

/// The last refusal, and how many there were. The count stops at the last value of a u64.
#[derive(Clone, Copy, Debug)]
pub struct Refused {
    pub last: Option<Refusal>,
    pub count: u64,
}

impl Refused {
    /// Nothing was refused so far.
    pub fn none() -> Refused
        ensures { result ≡ record { last = None; count = 0 } }
    {
        Refused {
            last: None,
            count: 0,
        }
    }

    /// One refusal more.
    pub fn with(self, why: Refusal) -> Refused
        ensures more { result ≡ record { last = Some why; count = raised self.count } }
        ensures later { self.count ≤ result.count }
    {
        Refused {
            last: Some(why),
            count: self.count.saturating_add(1),
        }
    }
}
