//! What follows of the desk's devices.

ghost use Rattle.desk.specs.Opening.{DeskBytesOpen};

/// Whatever bytes the two devices may hold opens, beside any archive that holds what the desk needs, to the history, or
/// to it with the change in doubt.
pub fn desk_bytes_open()
    ensures { DeskBytesOpen }
{}
