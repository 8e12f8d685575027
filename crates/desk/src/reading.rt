//! Pages as they are, and pages that are held for edits.

ghost use Rattle.std.specs.Prelude.{◌≡◌, ◌<◌, ◌==◌, ◌||◌, ◌&&◌, not, ℕ, OnErr, OnOk, MatchResult};
ghost use Rattle.block_file.specs.Blocks.{SameFile};
ghost use Rattle.disk_model.specs.Runs.{OnlyReads};
ghost use Rattle.retro_base.specs.Cause.{FaultsAlone};
ghost use Rattle.retro_base.specs.declared.device.Device.TheVariants.{Pages};
ghost use Rattle.history.specs.History.{now};
ghost use Rattle.page_pool.specs.Cause.{IsHoldRefusal};
ghost use Rattle.page_pool.specs.Side.{HoldsSame, held};
ghost use Rattle.race_model.specs.Desk.{Desk};
ghost use Rattle.desk.specs.Desk.{IsDesk, IsWhole};
ghost use Rattle.desk.specs.Steps.{SameButPages};

use crate::desk::RunningDesk;
use disk_model::Disk;
use retro_base::{Page, Refusal};

impl<D: Disk + Drop> RunningDesk<D> {
    /// Reads a page as it is. The only refusal is a fault of the pages' device; then `out` is as before.
    pub fn read(&mut self, page: u32, out: &mut Page) -> Result<(), Refusal>
        requires whole { IsWhole D.is_honest D.state self.old }
        requires inside { page < self.old.base.page_count }
        ensures whole { IsWhole D.is_honest D.state self.new }
        ensures rest { SameButPages self.old self.new }
        ensures same { SameFile D.is_honest self.old.pool.file self.new.pool.file }
        ensures held { HoldsSame self.old.pool self.new.pool }
        ensures cause { FaultsAlone Pages (D.faults self.old.pool.file.disk) (D.faults self.new.pool.file.disk) result }
        ensures desk { (desk : Desk) → IsDesk D.is_honest D.state self.old desk
            → IsDesk D.is_honest D.state self.new desk }
        ensures page { (desk : Desk) → IsDesk D.is_honest D.state self.old desk → D.is_honest self.old.pool.file.disk
            → OnOk result (out.new ≡ (now desk.history).pages page) }
        ensures err { OnErr result (out.new ≡ out.old) }
        ensures quiet { D.is_honest self.old.pool.file.disk
            → OnlyReads D.remembers D.state D.clock self.old.pool.file.disk self.new.pool.file.disk }
    {
        self.pool.read(page, out)
    }

    /// Holds a page in memory, so that a change may write it. Refused for want of memory, and exactly where a call of
    /// the pages' device failed; then the pages that are held are as before.
    pub fn hold(&mut self, page: u32) -> Result<(), Refusal>
        requires whole { IsWhole D.is_honest D.state self.old }
        requires inside { page < self.old.base.page_count }
        ensures whole { IsWhole D.is_honest D.state self.new }
        ensures rest { SameButPages self.old self.new }
        ensures same { SameFile D.is_honest self.old.pool.file self.new.pool.file }
        ensures held { OnOk result ((other : ℕ)
            → held self.new.pool other ≡ (held self.old.pool other || page == other)) }
        ensures as_before { OnErr result (HoldsSame self.old.pool self.new.pool) }
        ensures cause { MatchResult result (λ _. D.faults self.new.pool.file.disk ≡ D.faults self.old.pool.file.disk)
            (IsHoldRefusal (D.faults self.old.pool.file.disk) (D.faults self.new.pool.file.disk)) }
        ensures desk { (desk : Desk) → IsDesk D.is_honest D.state self.old desk
            → IsDesk D.is_honest D.state self.new desk }
        ensures quiet { D.is_honest self.old.pool.file.disk
            → OnlyReads D.remembers D.state D.clock self.old.pool.file.disk self.new.pool.file.disk }
    {
        self.pool.hold(page)
    }

    /// Holds a page no longer.
    pub fn release(&mut self, page: u32)
        requires { IsWhole D.is_honest D.state self.old }
        ensures whole { IsWhole D.is_honest D.state self.new }
        ensures rest { SameButPages self.old self.new }
        ensures file { self.new.pool.file ≡ self.old.pool.file }
        ensures held { (other : ℕ) → held self.new.pool other ≡ (held self.old.pool other && not (page == other)) }
        ensures desk { (desk : Desk) → IsDesk D.is_honest D.state self.old desk
            → IsDesk D.is_honest D.state self.new desk }
    {
        self.pool.release(page);
    }
}
