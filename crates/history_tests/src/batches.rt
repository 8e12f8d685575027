//! What no clause says: that a batch has room for 64 captures with memory at hand.

use race_model::Batch;
use retro_base::{BATCH, Page};
use std::test::Fail;

#[test]
fn a_batch_takes_sixty_four_captures(rt: HostRuntime) -> Result<(), Fail> {
    let mut batch = Batch::new(rt.alloc())?;
    batch.restart(9, 7);
    let mut pages = [0; BATCH];
    for place in 0..BATCH {
        let page = 65535 - place as u32;
        pages[place] = page;
        batch.add(page, &Page::of([place as u8; 1024]));
    }
    assert!(rt; (batch.first(), batch.low(), batch.len()) == (9, 7, 64));
    assert!(rt; batch.pages() == pages.as_slice());
    assert!(rt; *batch.bytes(63) == Page::of([63; 1024]));
    batch.restart(73, 64);
    assert!(rt; (batch.first(), batch.low(), batch.is_empty()) == (73, 64, true));
    Ok(())
}
