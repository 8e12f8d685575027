//! What no clause says: that calls succeed, at full size.

use copy_queue::CopyQueue;
use history::PageImage;
use retro_base::{Page, Refusal};
use std::alloc::Global;
use std::test::Fail;

// The queue from number 10 on with one image of each of these pages.
fn queue_of(alloc: Global, pages: &[u32]) -> Result<CopyQueue, Refusal> {
    let mut images = Vec::new(alloc);
    for page in pages {
        images.push(PageImage {
            page: *page,
            bytes: Page::zero(),
        })?;
    }
    let mut queue = CopyQueue::new(alloc, 10);
    if images.len() > 100_000 {
        return Err(Refusal::BadSizes);
    }
    queue.add(&images)?;
    Ok(queue)
}

#[test]
fn a_page_is_found_from_a_number_on(rt: HostRuntime) -> Result<(), Fail> {
    let mut queue = queue_of(rt.alloc(), &[5, 3, 5, 9])?;
    let found = [
        queue.find(5, 0),
        queue.find(5, 11),
        queue.find(5, 13),
        queue.find(4, 10),
    ];
    queue.keep(3);
    let gone = queue.pends(9);
    assert!(rt; (found, gone) == ([Some(0), Some(2), None, None], false));
    Ok(())
}
