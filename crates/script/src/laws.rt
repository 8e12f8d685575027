//! The laws of scripts, proved.

ghost use Rattle.script.specs.Rules.{FrontDecides, ReadsByTheRules};

/// The law of the script that lines tell: a bad line is the first that breaks a rule, and a script is what its lines
/// tell.
pub fn script_law()
    ensures { ReadsByTheRules }
{}

/// The law of the bytes that are read: what stands behind the first `SCRIPT_BYTES + 1` bytes changes nothing.
#[tactic(auto, using(crate::proofs::FrontLaws::front_decides))]
pub fn front_law()
    ensures { FrontDecides }
{}
