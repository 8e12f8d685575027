//! What follows of combining.

ghost use Rattle.fold_kit.specs.Combination.{Regroups};

/// Whatever the parts into which a list is divided, to combine each part and then what the parts give is to combine the
/// whole. An empty part gives nothing.
pub fn regroups()
    ensures { Regroups }
{}
