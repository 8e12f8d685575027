//! What no clause says: that calls succeed, at full size too, and what they answer for worked values.

ghost use Rattle.std.specs.Prelude.{◌≡◌, ◌<◌, IfSome, IsTrue, OnOk};
ghost use Rattle.history.specs.Label.{is_label};
ghost use Rattle.journal_law.specs.Seats.{Idle};
ghost use Rattle.plain_store.specs.Plain.{view_of};
ghost use Rattle.plain_run.specs.Still.{IsStill};

use journal_law::{Ending, Seat};
use plain_store::PlainStore;
use retro_base::{Page, Refusal, Who, get_u32};
use std::test::Fail;

fn item(number: u32) -> Who
    ensures { result ≡ record { phase = 1; session = 0; item = number } }
{
    Who {
        phase: 1,
        session: 0,
        item: number,
    }
}

// A page that begins with this number.
fn numbered(number: u32) -> Page {
    let mut page = Page::zero();
    page.put_u32(0, number);
    page
}

// Makes a page begin with this number, in a transaction of its own.
fn change<S: Seat>(
    seat: &mut S,
    who: Who,
    page: u32,
    number: u32,
    label: Option<&[u8]>,
) -> Result<Option<u32>, Refusal>
    requires idle { (S.view seat.old).work ≡ Idle }
    requires own { who.session ≡ (S.view seat.old).session }
    requires in_store { page < (S.view seat.old).opened.base.page_count }
    requires label { IfSome label (λ bytes. IsTrue (is_label bytes.now)) }
    ensures { OnOk result (IsStill (S.view seat.old) (S.view seat.new)) }
{
    seat.begin(who)?;
    seat.edit(page, &numbered(number))?;
    seat.commit(label)
}

// The number that a page begins with as of a snapshot.
fn number_at<S: Seat>(seat: &mut S, who: Who, snapshot: u32, page: u32) -> Result<u32, Refusal>
    requires idle { (S.view seat.old).work ≡ Idle }
    requires own { who.session ≡ (S.view seat.old).session }
    requires in_store { page < (S.view seat.old).opened.base.page_count }
    ensures { OnOk result (IsStill (S.view seat.old) (S.view seat.new)) }
{
    let mut out = Page::zero();
    seat.look(who, u64::from(snapshot))?;
    seat.past(snapshot, page, &mut out)?;
    seat.unlook(Ending::Asked);
    Ok(get_u32(out.bytes(), 0))
}

// The number that a page begins with now.
fn number_now<S: Seat>(seat: &mut S, who: Who, page: u32) -> Result<u32, Refusal>
    requires idle { (S.view seat.old).work ≡ Idle }
    requires own { who.session ≡ (S.view seat.old).session }
    requires in_store { page < (S.view seat.old).opened.base.page_count }
    ensures { OnOk result (IsStill (S.view seat.old) (S.view seat.new)) }
{
    let mut out = Page::zero();
    seat.begin(who)?;
    seat.read(page, &mut out)?;
    seat.rollback(Ending::Asked);
    Ok(get_u32(out.bytes(), 0))
}

// Drops the snapshots below a number.
fn drop_below<S: Seat>(seat: &mut S, who: Who, below: u64) -> Result<(), Refusal>
    requires idle { (S.view seat.old).work ≡ Idle }
    requires own { who.session ≡ (S.view seat.old).session }
    ensures { OnOk result (IsStill (S.view seat.old) (S.view seat.new)) }
{
    seat.drop_below(who, below)
}

// Changes a page so many times, with a snapshot each.
fn change_often<S: Seat>(seat: &mut S, page: u32, times: u32) -> Result<(), Refusal>
    requires idle { (S.view seat.old).work ≡ Idle }
    requires own { (S.view seat.old).session ≡ 0 }
    requires in_store { page < (S.view seat.old).opened.base.page_count }
    ensures { OnOk result (IsStill (S.view seat.old) (S.view seat.new)) }
{
    for number in 0..times {
        change(seat, item(number), page, number, Some(b""))?;
    }
    Ok(())
}

#[test]
fn thousands_of_snapshots_of_one_page(rt: HostRuntime) -> Result<(), Fail> {
    let mut store = PlainStore::new(rt.alloc(), 4096, 16384)?;
    change_often(&mut store, 7, 4000)?;
    let first = number_at(&mut store, item(4000), 1, 7)?;
    let middle = number_at(&mut store, item(4001), 2001, 7)?;
    let last = number_at(&mut store, item(4002), 4000, 7)?;
    let lines = store.into_journal().len();
    assert_eq!(rt; (first, middle, last, lines), (0, 2000, 3999, 8006));
    Ok(())
}

#[test]
fn a_page_now_and_at_a_snapshot(rt: HostRuntime) -> Result<(), Fail> {
    let mut store = PlainStore::new(rt.alloc(), 16, 64)?;
    let declared = change(&mut store, item(1), 3, 8, Some(b"one"))?;
    let written = change(&mut store, item(2), 3, 9, None)?;
    let held = number_at(&mut store, item(3), 1, 3)?;
    let missing = number_at(&mut store, item(4), 2, 3);
    assert_eq!(rt; (declared, written, held), (Some(1), None, 8));
    assert_eq!(rt;
        missing,
        Err(Refusal::NoSuchSnapshot {
            asked: 2,
            newest: 1
        })
    );
    Ok(())
}

#[test]
fn a_dropped_snapshot(rt: HostRuntime) -> Result<(), Fail> {
    let mut store = PlainStore::new(rt.alloc(), 16, 64)?;
    change_often(&mut store, 3, 3)?;
    drop_below(&mut store, item(3), 2)?;
    let now = number_now(&mut store, item(4), 3)?;
    let held = number_at(&mut store, item(5), 2, 3)?;
    let gone = number_at(&mut store, item(6), 1, 3);
    assert_eq!(rt; (now, held), (2, 1));
    assert_eq!(rt;
        gone,
        Err(Refusal::Dropped {
            asked: 1,
            oldest: 2
        })
    );
    Ok(())
}
