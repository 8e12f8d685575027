//! What the core's refusals tell.

ghost use Rattle.std.specs.Prelude.{◌≡◌};
ghost use Rattle.retro_base.specs.declared.device.Device.TheVariants.{Log};

use crate::desk_core::Core;
use disk_model::Disk;

impl<D: Disk + Drop> Core<D> {
    /// A fault of the log's device is told as one of the log's.
    pub fn names_log(&self)
        ensures { self.now.desk.log.log.area.log.device ≡ Log }
    {
        self.desk.names_log();
    }
}
