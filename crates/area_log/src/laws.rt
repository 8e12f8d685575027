//! What follows from the definitions.

ghost use Rattle.area_log.specs.Regions.{DeviceReadOneWay};

/// The list of a device of two halves is a function of its bytes, and so is the place with which it is refused.
pub fn device_is_read_one_way()
    ensures { DeviceReadOneWay }
{}
