//! How many pages adding opens.

ghost use Rattle.tree_index.specs.Opens.{OpensFew};

/// One more entry opens at most one page more than the tree has levels, and none where it belongs in a page of fewer
/// than four entries.
pub fn opens_few()
    ensures { OpensFew }
{}
