//! What the calls on heap tables do to a store of tables as a whole, over well-formed pages.
#![tactic(auto)]

mod store;

ghost use Rattle.heap_laws.specs.Laws.{AddLaw, ChainAnswersAreOne, ChangeLaw, FreshLaw, IndexPagesLaw};
ghost use Rattle.heap_laws.specs.Laws.{IndexesStayLaw, MakeLaw, ReadLaw, RemoveLaw, SizedLaw};

pub use store::with_table;

/// Any pages determine what `remove` and `change` answer, and the pages after them.
pub fn chain_answers_are_one()
    ensures { ChainAnswersAreOne }
{}

/// What is read of a table: no refusal, and rows in rising number, each below the next row number.
pub fn read_law()
    ensures { ReadLaw }
{}

/// A page of bytes holds only what can be written again.
pub fn sized_law()
    ensures { SizedLaw }
{}

/// A store of zero pages is well-formed, with no table or with the catalog's, which has no row.
pub fn fresh_law()
    ensures { FreshLaw }
{}

/// A table is made on the page that was next to be taken, and has no row. It is refused exactly where no page is free.
pub fn make_law()
    ensures { MakeLaw }
{}

/// A row is added last, under the next row number, and takes at most one page. It is refused exactly where its last
/// page has no room and no page is free.
pub fn add_law()
    ensures { AddLaw }
{}

/// A row is taken out, and a page behind the first that is left without a row is freed.
pub fn remove_law()
    ensures { RemoveLaw }
{}

/// A row is changed under its number, on its page where it has room there. It is refused exactly where it must take a
/// page and none is free.
pub fn change_law()
    ensures { ChangeLaw }
{}

/// Pages are taken for indexes, and what is written on them leaves the tables.
pub fn index_pages_law()
    ensures { IndexPagesLaw }
{}

/// What is done to tables leaves the pages of the indexes alone.
pub fn indexes_stay_law()
    ensures { IndexesStayLaw }
{}
