//! The laws of runs, and of the exit status of each command, proved.

ghost use Rattle.std.specs.Prelude.{ℕ, List};
ghost use Rattle.disk_model.specs.declared.four.Sizes.{Sizes};
ghost use Rattle.retro.specs.Formats.{StatusesOfFormatTellCauses};
ghost use Rattle.retro.specs.Keeping.{StatusesInTellCauses};
ghost use Rattle.retro.specs.Loads.{StatusesOfLoadTellCauses};
ghost use Rattle.retro.specs.Phases.{PhasesMakeRuns};
ghost use Rattle.retro.specs.Program.{StatusesTellCauses};
ghost use Rattle.retro.specs.Seen.{Seen};
ghost use Rattle.retro.specs.Shows.{StatusesOfShowTellCauses};

use disk_model::Cabinet;

/// Phases of sessions at seats of their own, behind each of which all seats meet, make a run.
pub fn phases_make_runs()
    ensures { (size : ℕ) → PhasesMakeRuns size }
{}

/// The status of a run tells its cause.
pub fn statuses_tell_causes()
    ensures { StatusesTellCauses }
{}

/// So does that of a run over a store that a cabinet keeps.
pub fn statuses_in_tell_causes<C: Cabinet>()
    ensures { (dir : List ℕ) (source sink : Seen) (old new : C) (status : ℕ)
        → StatusesInTellCauses C.faults C.is_out C.tells C.store C.Device.extent C.Device.faults C.Device.is_honest
        C.Device.remembers C.Device.state C.Device.clock dir source sink old new status }
{}

/// So does that of the making of a store.
pub fn statuses_of_format_tell_causes<C: Cabinet>()
    ensures { (dir : List ℕ) (sizes : Sizes) (sink : Seen) (old new : C) (status : ℕ)
        → StatusesOfFormatTellCauses C.faults C.is_out C.tells C.store C.Device.extent C.Device.faults
        C.Device.is_honest C.Device.state dir sizes sink old new status }
{}

/// So does that of a look at one.
pub fn statuses_of_show_tell_causes<C: Cabinet>()
    ensures { (dir : List ℕ) (sink : Seen) (old new : C) (status : ℕ)
        → StatusesOfShowTellCauses C.faults C.is_out C.tells C.store C.Device.extent C.Device.faults
        C.Device.is_honest C.Device.remembers C.Device.state C.Device.clock dir sink old new status }
{}

/// So does that of a load.
pub fn statuses_of_load_tell_causes()
    ensures { StatusesOfLoadTellCauses }
{}
