//! The open work of each session.

ghost use Rattle.std.specs.Prelude.{◌≡◌, slice_set, replicate, None, IfSome};

use std::alloc::Global;
use std::marker::Model;

/// Since which line each session's transaction is open; none where it has none. Contracts see the list.
#[derive(Drop)]
pub struct Works {
    since: Vec<Option<u64>>,
}

impl Model for Works {
    ghost use Rattle.std.specs.Prelude.{List, Option, ℕ};

    ghost Value = { List (Option ℕ) };

    ghost view = { λ w. w.since.items };
}

impl Works {
    /// No work of any of so many sessions. None where memory runs out.
    pub fn new(alloc: Global, sessions: u32) -> Option<Works>
        ensures { IfSome result (λ w. w ≡ replicate sessions None) }
    {
        let since = Vec::from_elem(alloc, None, sessions as usize).ok()?;
        Some(Works { since })
    }

    pub(crate) fn set(&mut self, session: u16, since: Option<u64>)
        ensures { self.new ≡ slice_set self.old session since }
    {
        let place = usize::from(session);
        if place < self.since.len() {
            self.since[place] = since;
        }
    }

    /// Whether no session has a transaction that is open.
    pub fn are_ended(&self) -> bool {
        self.since.iter().all(|since| since.is_none())
    }
}
