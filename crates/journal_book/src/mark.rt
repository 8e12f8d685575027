//! A table by page of where its last change stands.

ghost use Rattle.std.specs.Prelude.{◌≡◌, ◌<◌, length};
ghost use Rattle.std.specs.List.{AllByRecursion};
ghost use Rattle.journal_book.specs.Book.{marked};

use history::PageImage;

/// Puts this number at each of these pages of a table.
pub(crate) fn mark(table: &mut Vec<u32>, number: u32, writes: &[PageImage])
    requires { AllByRecursion (λ write. write.page < length table.old.items) writes.now }
    ensures { table.new.items ≡ marked table.old.items number writes.now }
{
    for write in writes {
        table[write.page as usize] = number;
    }
}
