//! Why a call of the vault failed.

use retro_base::Refusal;

/// Why a call of the vault failed.
#[derive(Clone, Copy, Debug, PartialEq, Eq)]
pub struct Fault {
    /// The refusal.
    pub why: Refusal,
    /// Whether a write or a sync of a device failed in the call that first answered this fault.
    pub wrote: bool,
}
