//! Names that are listed.

ghost use Rattle.std.specs.Prelude.{◌≡◌, ◌++◌, ◌∷◌, [], not, filter, OnOk, OnErr};
ghost use Rattle.std.specs.List.{list_any};
ghost use Rattle.disk_file.specs.Names.{has_bytes};

use std::alloc::AllocError;

/// Whether the name is listed.
pub fn has_name(names: &[String], dir: &str) -> bool
    ensures { result ≡ list_any (has_bytes dir.now) names.now }
{
    names.iter().any(|name| name.as_str() == dir)
}

/// Lists a name.
pub fn add_name(names: &mut Vec<String>, name: String) -> Result<(), AllocError>
    ensures ok { OnOk result (names.new.items ≡ names.old.items ++ name ∷ []) }
    ensures err { OnErr result (names.new.items ≡ names.old.items) }
{
    names.push(name)?;
    Ok(())
}

/// Takes the name from the list, each time that it stands there.
pub fn remove_name(names: &mut Vec<String>, dir: &str)
    ensures { names.new.items ≡ filter (λ name. not (has_bytes dir.now name)) names.old.items }
{
    names.retain(|name| name.as_str() != dir);
}
