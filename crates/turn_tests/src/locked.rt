//! The small values, as the locks see them.

use crate::small::{Book, Shelf, Start};
use turn::locked::{DeskValue, Opening, VaultValue};

impl Opening for Start {
    ghost use Rattle.turn_tests.specs.Meanings.{of_start, quiet_front};

    ghost meaning = { of_start };

    ghost fronts = { λ o lines more quiet. quiet_front lines more quiet };
}

impl DeskValue for Book {
    type Opening = Start;

    type Work = u64;

    ghost use Rattle.turn_tests.specs.Meanings.{of_book};

    ghost meaning = { of_book };

    fn horizon(&self) -> (u32, u32) {
        (1, self.newest)
    }
}

impl VaultValue<Start> for Shelf {
    ghost use Rattle.turn_tests.specs.Meanings.{of_shelf, stands_on};

    ghost meaning = { of_shelf };

    ghost outlives = { λ shelf o lines more fits lawful. stands_on shelf.held lines more fits };

    fn held(&self) -> u64 {
        self.held
    }
}
