//! What the desk's refusals tell.

ghost use Rattle.std.specs.Prelude.{◌≡◌};
ghost use Rattle.retro_base.specs.declared.device.Device.TheVariants.{Log};

use crate::desk::RunningDesk;
use disk_model::Disk;

impl<D: Disk + Drop> RunningDesk<D> {
    /// A fault of the log's device is told as one of the log's.
    pub fn names_log(&self)
        ensures { self.now.log.log.area.log.device ≡ Log }
    {
        self.log.names_log();
    }
}
