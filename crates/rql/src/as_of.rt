//! Queries as of snapshots.

ghost use Rattle.std.specs.Prelude.{◌≡◌, ℕ, Bool, IsTrue};
ghost use Rattle.sql_tree.specs.Statement.{IsSelect};
ghost use Rattle.rql.specs.AsOf.{Answers, IsOfQuery, OnlyAsks, Tells};

use pager::Stop;
use sql_select::Answer;
use sql_tree::Select;

/// What answers a query as of snapshots.
pub trait AsOf {
    /// Why a call failed.
    type Fault;

    // The numbers that may be asked.
    ghost may_ask: { Self → ℕ → Bool };

    // Whether this may be what each query gives at each of them.
    ghost told: { Self → Answers → Type 0 };

    // What stays over its calls, whatever they answer.
    ghost goes: { Self → Self → Type 0 };

    ghost stays: { (a : Self) → goes a a };

    ghost goes_on: { (a b c : Self) → goes a b → goes b c → goes a c };

    // How many calls have failed. The count stops at the last value of a u64.
    ghost faults: { Self → ℕ };

    /// The answer of a query at a snapshot, whose number is that of `current_snapshot()`. It may be refused by what the
    /// query's meaning refuses, for pages that are no store's, and for want of memory.
    fn answer(&mut self, snapshot: u32, query: &Select) -> Result<Answer, Stop<Self::Fault>>
        requires asked { IsTrue (may_ask self.old snapshot) }
        requires query { IsSelect query.now }
        ensures told { Tells (λ answer. answer) (told self.old) query.now (λ answers. answers snapshot) result }
        ensures only_asks { OnlyAsks may_ask told goes faults IsOfQuery self.old self.new result };

    /// How many calls have failed.
    fn faults(&self) -> u64
        ensures { result ≡ faults self.now };
}
