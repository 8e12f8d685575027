//! The fault that stops a desk.

ghost use Rattle.std.specs.Prelude.{◌≡◌};
ghost use Rattle.retro_base.specs.declared.refusal.Refusal.TheVariants.{Stopped};

use retro_base::{Device, Refusal};

/// The first fault of a device that a write or a sync met: since then the desk writes nothing.
#[derive(Clone, Copy)]
pub struct Stop {
    pub device: Device,
    pub count: u64,
}

impl Stop {
    /// The refusal of every later write.
    pub fn refusal(self) -> Refusal
        ensures { result ≡ Stopped self.device self.count }
    {
        Refusal::Stopped {
            device: self.device,
            count: self.count,
        }
    }
}
