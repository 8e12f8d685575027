//! Clean pages in memory that may go at any time.

ghost use Rattle.std.specs.Prelude.{◌≡◌, true, false, ℕ, List, [], Contains, IfErr, IfNone, IfOk, IfSome};
ghost use Rattle.retro_base.specs.declared.refusal.Refusal.TheVariants.{OutOfMemory};
ghost use Rattle.retro_base.specs.declared.limits.TheConstants.{CLEAN_FRAMES};
ghost use Rattle.page_pool.specs.Clean.{KeepsBeside, KeepsNoMore};

use lru::LruCache;
use retro_base::{CLEAN_FRAMES, Page, Refusal};
use std::alloc::Global;
use std::num::NonZeroUsize;

// No pages. Refused for want of memory alone.
pub fn none(alloc: Global) -> Result<LruCache<u32, Page>, Refusal>
    ensures done { IfOk result (λ clean. clean ≡ record { entries = []; cap = CLEAN_FRAMES }) }
    ensures memory { IfErr result (λ why. why ≡ OutOfMemory) }
{
    let Some(room) = NonZeroUsize::new(CLEAN_FRAMES) else {
        unreachable!()
    };
    Ok(LruCache::sparse(alloc, room)?)
}

// Keeps a page, or does not for want of memory.
pub fn keep(clean: &mut LruCache<u32, Page>, page: u32, bytes: &Page)
    ensures beside { KeepsBeside clean.old.entries (page, bytes.now) clean.new.entries }
    ensures room { clean.new.cap ≡ clean.old.cap }
{
    match clean.put(page, *bytes) {
        Ok(_) => return,
        Err(_) => return,
    }
}

// Copies a page into `out`, where it is kept; it is then the most recently used.
pub fn copy(clean: &mut LruCache<u32, Page>, page: u32, out: &mut Page) -> bool
    ensures found { result ≡ true → Contains clean.old.entries (page, out.new) }
    ensures missed { result ≡ false → (out.new ≡ out.old)
        × ((bytes : List ℕ) → Contains clean.old.entries (page, bytes) → ⊥) }
    ensures others { KeepsNoMore clean.old.entries clean.new.entries }
    ensures room { clean.new.cap ≡ clean.old.cap }
{
    let Some(bytes) = clean.get(&page) else {
        return false;
    };
    *out = *bytes;
    true
}

// Takes a page out.
pub fn take(clean: &mut LruCache<u32, Page>, page: u32) -> Option<Page>
    requires { clean.old.cap ≡ CLEAN_FRAMES }
    ensures found { IfSome result (λ bytes. Contains clean.old.entries (page, bytes)) }
    ensures missed { IfNone result ((bytes : List ℕ) → Contains clean.old.entries (page, bytes) → ⊥) }
    ensures others { KeepsNoMore clean.old.entries clean.new.entries }
    ensures gone { (bytes : List ℕ) → Contains clean.new.entries (page, bytes) → ⊥ }
    ensures room { clean.new.cap ≡ clean.old.cap }
{
    let count = clean.len();
    prove!(count <= CLEAN_FRAMES);
    clean.pop(&page)
}
