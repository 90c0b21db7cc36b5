// Why a store was not opened, where a file was set to fail.

use crate::world::Place;
use host_card::CardFault;
use kept_store::OpenFault;
use object_calls::MountFault;
use tee_types::{Cause, Device};

// The file that is told as the one which failed.
fn place_of(fault: OpenFault) -> Option<Place> {
    match fault {
        OpenFault::Card(CardFault::Failed { .. }) => Some(Place::Card),
        OpenFault::Block { .. } => Some(Place::Block),
        OpenFault::Store(MountFault::Failed(Cause::Fault { device, .. })) => match device {
            Device::Dir => Some(Place::DIRECTORY),
            Device::File(number) => Some(Place::File(number)),
            Device::Card => Some(Place::Card),
            Device::Entropy => None,
        },
        _ => None,
    }
}

/// Whether the fault tells that a call of this file failed.
pub fn is_of(fault: OpenFault, place: Place) -> bool {
    place_of(fault) == Some(place)
}
