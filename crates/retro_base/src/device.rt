//! The devices of a store.

use std::fmt;

/// A device of a store.
#[derive(Clone, Copy, Debug, PartialEq, Eq)]
pub enum Device {
    /// The log of the desk.
    Log,
    /// The pages.
    Pages,
    /// The log of page images.
    Pagelog,
    /// The log of mappings.
    Maplog,
    /// The cabinet.
    Cabinet,
}

impl Device {
    ghost use Rattle.std.specs.Prelude.{◌≡◌};
    ghost use Rattle.retro_base.specs.Device.{device_name};

    /// The name of the device, as a transcript shows it.
    pub fn name(self) -> &'static str
        ensures { result.now ≡ device_name self }
    {
        match self {
            Device::Log => "log",
            Device::Pages => "pages",
            Device::Pagelog => "pagelog",
            Device::Maplog => "maplog",
            Device::Cabinet => "cabinet",
        }
    }
}

impl fmt::Display for Device {
    ghost use Rattle.std.specs.Prelude.{Some};
    ghost use Rattle.retro_base.specs.Device.{device_name};

    ghost output = { λ d. Some (device_name d) };

    fn fmt<W: fmt::Write>(&self, f: &mut fmt::Formatter<W>) -> fmt::Result {
        write!(f, "{}", self.name())
    }
}
