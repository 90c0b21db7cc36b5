//! The name of what a store's devices were as it was shared.

ghost use Rattle.serial_calls.specs.Devices.{Devices};

use std::marker::Brand;

/// Names the devices of a store as they were when it was shared: contracts compare with them what the devices counted since. No code reads
/// it.
pub trait DevicesName {
    ghost devices: { Devices };
}

impl DevicesName for Brand {
    ghost use Rattle.shared_calls.specs.Names.{no_devices};

    ghost devices = { no_devices };
}
