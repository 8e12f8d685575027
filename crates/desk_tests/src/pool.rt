//! What no clause says: that the pool's calls succeed.

use disk_mem::MemDisk;
use disk_model::Disk;
use history::PageImage;
use page_pool::PagePool;
use retro_base::{PAGE_BYTES, Page, Refusal};
use std::alloc::Global;
use std::test::Fail;

fn opened<D: Disk + Drop>(alloc: Global, disk: D, pages: u32) -> Result<PagePool<D>, Refusal> {
    if disk.size() != 1024 * u64::from(pages) {
        return Err(Refusal::BadSizes);
    }
    match PagePool::new(alloc, disk, pages) {
        Ok(pool) => Ok(pool),
        Err((_, refusal)) => Err(refusal),
    }
}

fn pool_of(alloc: Global, pages: u32) -> Result<PagePool<MemDisk>, Refusal> {
    let disk = MemDisk::new(alloc, 1024 * u64::from(pages), Vec::new(alloc), None)?;
    opened(alloc, disk, pages)
}

// Fills a page with that byte.
fn fill<D: Disk>(pool: &mut PagePool<D>, page: u32, byte: u8) -> Result<(), Refusal> {
    if page >= pool.pages() {
        return Err(Refusal::BadSizes);
    }
    pool.hold(page)?;
    let bytes = Page::of([byte; PAGE_BYTES]);
    pool.write(&[PageImage { page, bytes }]);
    pool.release(page);
    Ok(())
}

// Writes the least dirty page back, and tells it.
fn write_least<D: Disk>(pool: &mut PagePool<D>) -> Result<Option<u32>, Refusal> {
    let Some(page) = pool.next_dirty(0) else {
        return Ok(None);
    };
    pool.write_back(page)?;
    Ok(Some(page))
}

#[test]
fn the_least_dirty_page_goes_back_first(rt: HostRuntime) -> Result<(), Fail> {
    let mut pool = pool_of(rt.alloc(), 16)?;
    fill(&mut pool, 7, 2)?;
    fill(&mut pool, 3, 1)?;
    let dirty = pool.dirty();
    let least = write_least(&mut pool)?;
    let left = (pool.dirty(), pool.next_dirty(0));
    let bytes = pool.into_disk();
    assert!(rt; (dirty, least, left) == (2, Some(3), (1, Some(7))));
    assert!(rt; (bytes.bytes().get(3072), bytes.bytes().get(7168)) == (Some(&1), Some(&0)));
    Ok(())
}
