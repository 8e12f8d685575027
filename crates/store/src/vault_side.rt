//! The archive as the vault's lock keeps it.

use crate::start::Start;
use archive::Archive;
use disk_model::Disk;
use turn::locked::VaultValue;

impl<D: Disk> VaultValue<Start<D>> for Archive<D> {
    ghost use Rattle.store.specs.Sides.{of_vault, vault_outlives};

    ghost meaning = { of_vault D.is_honest D.state D.faults };

    ghost outlives = { λ archive start lines more stands lawful.
        (vault_outlives D.is_honest D.state archive start lines more stands.0 lawful, stands.1) };

    fn held(&self) -> u64 {
        Archive::held(self)
    }
}
