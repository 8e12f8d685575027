//! Rows that fit the columns of their table.

use heap_file::{Placed, Sieve};
use pager::broken;
use retro_base::Refusal;
use sql_tree::{Column, fits};

/// A test of a table's rows: each is to fit the columns, else its page is broken, and is tested then.
#[derive(Drop)]
pub struct Fitting<'a, S> {
    pub columns: &'a [Column],
    pub sieve: S,
}

impl<'a, S: Sieve> Sieve for Fitting<'a, S> {
    ghost use Rattle.relation.specs.Sieving.{fitted, fitting};

    ghost passes = { λ s. fitting s.columns.now (S.passes s.sieve) };

    ghost met = { λ start rows s. fitted start.columns.now rows s.columns.now × S.met start.sieve rows s.sieve };

    fn test(&mut self, placed: &Placed) -> Result<bool, Refusal> {
        if !fits(self.columns, placed.row.as_slice()) {
            return Err(broken(placed.page));
        }
        self.sieve.test(placed)
    }
}
