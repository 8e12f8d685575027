//! What a change owes its record, and the bases behind changes.

ghost use Rattle.std.specs.Prelude.{◌<◌, ◌^◌};
ghost use Rattle.std.specs.List.{AllByRecursion};
ghost use Rattle.records.specs.Entries.{ChangeFits, LabelFits, page_width, WriteFits};
ghost use Rattle.redo_log.specs.Laws.{FittingBasesStay, IsWithinRecord};

use history::{Change, Label, PageImage, Version};

/// A base that fits its record does so behind each right change that fits its own.
pub fn fitting_bases_stay()
    ensures { FittingBasesStay }
{}

/// A change of so many pages as a record may have fits it, since its label, its writes and their bytes are what their
/// types say. It looks at each page once.
pub fn change_fits(version: Version, change: &Change)
    requires { IsWithinRecord version change.now }
    ensures { ChangeFits version change.now }
{
    match change {
        Change::Commit { label, writes } => {
            label_fits(label);
            writes_fit(version, writes.images());
        }
        Change::Drop { below } => {
            let _below = *below;
        }
    }
}

fn label_fits(label: &Option<Label>)
    ensures { LabelFits label.now }
{
    match label {
        Some(label) => {
            let _bytes = label.bytes();
        }
        None => {}
    }
}

fn writes_fit(version: Version, writes: &[PageImage])
    requires { AllByRecursion (λ write. write.page < 256 ^ page_width version) writes.now }
    ensures { AllByRecursion (WriteFits version) writes.now }
{
    for write in writes {
        let _bytes = write.bytes.bytes();
    }
}
