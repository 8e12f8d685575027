//! The store as its one seat.

use crate::commit::copied_label;
use crate::lines::{add_line, closing, open_line, unlooking};
use crate::numbers::{is_one_too_many, look_refused, no_snapshot, too_many};
use crate::pages::shown_page;
use crate::store::PlainStore;
use crate::work::{Look, Transaction, Work};
use history::{Line, Mark, PageImage, What, Writes, copied_marks, oldest};
use journal_law::{Ending, Seat};
use retro_base::{Page, Refusal, Who};
use values::Seq;

impl Seat for PlainStore {
    ghost use Rattle.std.specs.Prelude.{refl};
    ghost use Rattle.plain_store.specs.Frames.{goes_on, stays};
    ghost use Rattle.plain_store.specs.Plain.{view_of};
    ghost use Rattle.plain_store.specs.Turns.{GoesOn};

    ghost view = { view_of };

    ghost goes = { GoesOn };

    ghost seats = { λ store. 1 };

    ghost seats_stay = { λ s t goes. refl };

    ghost stays = { stays };

    ghost goes_on = { goes_on };

    ghost is_honest = { λ store. Unit {0} };

    ghost honest_stays = { λ s t goes. (λ honest. honest, λ honest. honest) };

    fn pages(&self) -> u32 {
        self.base.page_count()
    }

    fn begin(&mut self, who: Who) -> Result<(), Refusal> {
        let line = Line {
            who,
            what: What::Began,
        };
        open_line(&mut self.book, line)?;
        self.work = Work::Open(Transaction {
            who,
            has_read: false,
            edits: Writes::new(Vec::new(self.alloc)),
            too_many: false,
        });
        Ok(())
    }

    fn read(&mut self, page: u32, out: &mut Page) -> Result<(), Refusal> {
        let transaction = self.work.transaction();
        if transaction.too_many {
            return Err(too_many());
        }
        *out = shown_page(&self.pages, transaction.edits.images(), page);
        self.work.note_read();
        Ok(())
    }

    fn edit(&mut self, page: u32, bytes: &Page) -> Result<(), Refusal> {
        let transaction = self.work.transaction();
        if transaction.too_many {
            return Err(too_many());
        }
        if is_one_too_many(transaction.edits.images(), page) {
            self.work.note_too_many();
            return Err(too_many());
        }
        self.work.add_edit(PageImage {
            page,
            bytes: *bytes,
        })?;
        Ok(())
    }

    fn commit(&mut self, label: Option<&[u8]>) -> Result<Option<u32>, Refusal> {
        if self.work.transaction().too_many {
            return Err(too_many());
        }
        let label = copied_label(self.alloc, label)?;
        self.commit_edits(label)
    }

    fn rollback(&mut self, why: Ending) {
        let transaction = self.work.take_transaction();
        let line = Line {
            who: transaction.who,
            what: closing(transaction.too_many, why),
        };
        self.book.close(line);
    }

    fn look(&mut self, who: Who, snapshot: u64) -> Result<(), Refusal> {
        if let Some(why) = self.book.lines_refused(2) {
            return Err(why);
        }
        if let Some(why) = look_refused(snapshot, self.base.marks()) {
            let line = Line {
                who,
                what: What::Refused { why },
            };
            add_line(&mut self.book, line)?;
            return Err(why);
        }
        let snapshot = snapshot as u32;
        let line = Line {
            who,
            what: What::Looked { snapshot },
        };
        open_line(&mut self.book, line)?;
        self.work = Work::Looking(Look {
            who,
            snapshot: Some(snapshot),
        });
        Ok(())
    }

    fn look_all(&mut self, who: Who) -> Result<Seq<Mark>, Refusal> {
        let marks = copied_marks(self.alloc, self.base.marks())?;
        let line = Line {
            who,
            what: What::LookedAll,
        };
        open_line(&mut self.book, line)?;
        self.work = Work::Looking(Look {
            who,
            snapshot: None,
        });
        Ok(Seq::from(marks))
    }

    fn past(&mut self, snapshot: u32, page: u32, out: &mut Page) -> Result<(), Refusal> {
        *out = *self.pages[page as usize].bytes_at(snapshot);
        Ok(())
    }

    fn unlook(&mut self, why: Ending) {
        let look = self.work.take_look();
        let line = Line {
            who: look.who,
            what: unlooking(why),
        };
        self.book.close(line);
    }

    fn drop_below(&mut self, who: Who, below: u64) -> Result<(), Refusal> {
        if let Some(why) = self.book.lines_refused(1) {
            return Err(why);
        }
        if let Some(why) = no_snapshot(below, self.base.marks()) {
            let line = Line {
                who,
                what: What::Refused { why },
            };
            add_line(&mut self.book, line)?;
            return Err(why);
        }
        let below = below as u32;
        let line = Line {
            who,
            what: What::Dropped { below },
        };
        add_line(&mut self.book, line)?;
        if oldest(self.base.marks()) < below {
            self.base.drop_below(below);
        }
        Ok(())
    }
}
