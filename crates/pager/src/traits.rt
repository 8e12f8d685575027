//! Where pages are read and edited.

ghost use Rattle.std.specs.Prelude.{◌≡◌, ◌<◌, ◌⊎◌, ℕ, OnErr, OnOk};
ghost use Rattle.retro_base.specs.Cause.{HasCause};
ghost use Rattle.pager.specs.Pages.{Pages, Leads, Narrows, with_mark, with_bytes};

use retro_base::Page;

/// Where pages are read from.
pub trait Pager {
    /// Why a call failed.
    type Fault;

    // The pages that it shows, were these the pages of the store when it began. Each page that is read rules out some.
    ghost tells: { Self → Pages → Pages → Type 0 };

    // What stays over its calls, whatever they answer.
    ghost goes: { Self → Self → Type 0 };

    // How many pages there are.
    ghost size: { Self → ℕ };

    // How many calls have failed. The count stops at the last value of a u64.
    ghost faults: { Self → ℕ };

    /// Puts the page of that number into `out`. After a fault `out` may hold any bytes.
    fn read(&mut self, page: u32, out: &mut Page) -> Result<(), Self::Fault>
        requires { page < size self.old }
        ensures told { OnOk result ((base shown : Pages) → tells self.new base shown → out.new ≡ shown.at page) }
        ensures narrows { Narrows (tells self.old) (tells self.new) }
        ensures goes { goes self.old self.new }
        ensures size { size self.new ≡ size self.old }
        ensures cause { HasCause (faults self.old) (faults self.new) result };

    /// How many pages there are.
    fn size(&self) -> u32
        ensures { result ≡ size self.now };

    /// How many calls have failed.
    fn faults(&self) -> u64
        ensures { result ≡ faults self.now };

    ghost stays: { (p : Self) → goes p p };

    ghost goes_on: { (p q r : Self) → goes p q → goes q r → goes p r };
}

/// Where pages are edited too.
pub trait EditPager: Pager {
    /// Puts these bytes into the page of that number. After a fault the bytes of all pages are as before, and the page
    /// may count as edited.
    fn edit(&mut self, page: u32, bytes: &Page) -> Result<(), Self::Fault>
        requires { page < Self.size self.old }
        ensures ok { OnOk result
            (Leads (Self.tells self.old) (Self.tells self.new) (λ was now. now ≡ with_bytes was page bytes.now)) }
        ensures err { OnErr result
            (Leads (Self.tells self.old) (Self.tells self.new) (λ was now. (now ≡ was) ⊎ (now ≡ with_mark was page))) }
        ensures goes { Self.goes self.old self.new }
        ensures size { Self.size self.new ≡ Self.size self.old }
        ensures cause { HasCause (Self.faults self.old) (Self.faults self.new) result };
}
