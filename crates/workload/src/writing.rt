//! Lines of a script.

ghost use Rattle.std.specs.Prelude.{◌≡◌, ◌++◌, ◌∷◌, [], OnOk, string_bytes};
ghost use Rattle.workload.specs.Load.{script_text};

use std::alloc::AllocError;

/// Appends a line.
#[tactic(auto, unfolding(crate::specs::Load::script_text))]
pub fn write_line(text: &mut String, line: &str) -> Result<(), AllocError>
    ensures { OnOk result (string_bytes text.new ≡ string_bytes text.old ++ script_text (line.now ∷ [])) }
{
    text.push_str(line)?;
    text.push_str("\n")
}
