//! Stores by name.

ghost use Rattle.std.specs.Prelude.{◌≡◌, ◌↔◌, ℕ, List, Option, Some, None, IfOk, IsErr};
ghost use Rattle.disk_model.specs.Cabinet.{AreSized, Each, GoesOut, IsBlank, OneLessOut, Stands, TakesOut};
ghost use Rattle.disk_model.specs.Cause.{HasCause};
ghost use Rattle.disk_model.specs.declared.four.Four.{Four as FourOf};

use crate::disk::{Disk, Failed};
use crate::four::{Four, Sizes};
use std::marker::Send;

/// Keeps the devices of stores, each store by the name of its folder. A store whose devices were handed out is
/// out until they come back.
pub trait Cabinet {
    type Device: Disk + Drop + Send;

    // How many calls have failed. The count stops at the last value of a u64.
    ghost faults: { Self → ℕ };

    // The store of that name is out.
    ghost is_out: { Self → List ℕ → Type 0 };

    // It tells its stores, and makes devices that tell their bytes.
    ghost tells: { Self → Type 0 };

    // The store that stands under that name.
    ghost store: { Self → List ℕ → Option (FourOf Self.Device) };

    // Under a name that is out no store stands.
    ghost none_out: { (c : Self) (name : List ℕ) → tells c → is_out c name → store c name ≡ None };

    /// How many calls have failed.
    fn faults(&self) -> u64
        ensures { result ≡ faults self.now };

    /// Takes out the devices of the store of that name. Fails where there is none.
    fn fetch(&mut self, dir: &str) -> Result<Four<Self::Device>, Failed>
        ensures cause { HasCause (faults self.old) (faults self.new) result }
        ensures told { tells self.old ↔ tells self.new }
        ensures out { GoesOut dir.now (is_out self.old) (is_out self.new) result }
        ensures none { tells self.old → store self.old dir.now ≡ None → IsErr result }
        ensures found { tells self.old → IfOk result (λ four. store self.old dir.now ≡ Some four) }
        ensures stands { tells self.old → TakesOut dir.now (store self.old) (store self.new) result };

    /// Makes the devices of a new store of these sizes in the place of one that stood under that name, all bytes 0
    /// and durable, and takes them out. Fails where the store of that name is out.
    fn create(&mut self, dir: &str, sizes: Sizes) -> Result<Four<Self::Device>, Failed>
        ensures cause { HasCause (faults self.old) (faults self.new) result }
        ensures told { tells self.old ↔ tells self.new }
        ensures out { GoesOut dir.now (is_out self.old) (is_out self.new) result }
        ensures once { is_out self.old dir.now → IsErr result }
        ensures sized { IfOk result (λ four. AreSized Self.Device.extent sizes four) }
        ensures blank { tells self.old
            → IfOk result (λ four. Each (IsBlank Self.Device.extent Self.Device.is_honest Self.Device.state) four) }
        ensures stands { tells self.old → TakesOut dir.now (store self.old) (store self.new) result };

    /// Puts the devices of a store that is out back under its name. Takes no memory.
    fn put_back(&mut self, dir: &str, four: Four<Self::Device>)
        requires { is_out self.old dir.now }
        ensures faults { faults self.new ≡ faults self.old }
        ensures told { tells self.old ↔ tells self.new }
        ensures out { OneLessOut dir.now (is_out self.old) (is_out self.new) }
        ensures stands { tells self.old → Stands dir.now (Some four) (store self.old) (store self.new) };
}
