//! Pages in memory that are dirty or held.

ghost use Rattle.std.specs.Prelude.{◌≡◌, ◌<◌, ◌≤◌, ◌+◌, ◌^◌, true, false, ℕ, Bool, Option};
ghost use Rattle.std.specs.Prelude.{Some, None, IsSome, OnOk, OnErr, IfErr, MatchOption};
ghost use Rattle.retro_base.specs.declared.refusal.Refusal.TheVariants.{OutOfMemory};
ghost use Rattle.page_pool.specs.Frames.{frame_in, is_dirty_in, IsLeastDirty, IsLeastFrame, SetsFrame};

use retro_base::{Page, Refusal};
use std::collections::BTreeMap;

/// The bytes of a page in memory, whether they differ from the device, and whether it stays though they do not.
#[derive(Clone, Copy, Debug, PartialEq, Eq)]
pub struct Frame {
    pub bytes: Page,
    pub is_dirty: bool,
    pub is_held: bool,
}

pub type Frames = BTreeMap<u32, Frame>;

// Puts a frame in the place of the page's frame; takes no memory.
pub fn replace(frames: &mut Frames, page: u32, frame: Frame)
    requires { IsSome (frame_in frames.old page) }
    ensures { SetsFrame (frame_in frames.old) (frame_in frames.new) page (Some frame) }
{
    let Ok(_) = frames.insert(page, frame) else {
        unreachable!()
    };
}

// Adds a frame. Refused for want of memory alone, and then the frames are as before.
pub fn add(frames: &mut Frames, page: u32, frame: Frame) -> Result<(), Refusal>
    ensures done { OnOk result (SetsFrame (frame_in frames.old) (frame_in frames.new) page (Some frame)) }
    ensures memory { IfErr result (λ why. why ≡ OutOfMemory) }
    ensures untouched { OnErr result (frames.new.entries ≡ frames.old.entries) }
{
    frames.insert(page, frame)?;
    Ok(())
}

// Takes the page's frame out.
pub fn remove(frames: &mut Frames, page: u32)
    ensures { SetsFrame (frame_in frames.old) (frame_in frames.new) page None }
{
    frames.remove(&page);
}

// The least page with a frame at or past that one, and whether it is dirty.
fn least_frame(frames: &Frames, from: u32) -> Option<(u32, bool)>
    ensures { IsLeastFrame (frame_in frames.now) from result }
{
    let (page, frame) = frames.range(from..).next()?;
    Some((*page, frame.is_dirty))
}

// The least dirty page at or past that one.
pub fn least_dirty(frames: &Frames, from: u32) -> Option<u32>
    requires { (page : ℕ) → IsSome (frame_in frames.now page) → page + 1 < 2 ^ 32 }
    ensures { IsLeastDirty (λ page. is_dirty_in (frame_in frames.now page)) from result }
{
    let mut at = from;
    while let Some((page, is_dirty)) = least_frame(frames, at) {
        if is_dirty {
            return Some(page);
        }
        at = page + 1;
    }
    None
}
