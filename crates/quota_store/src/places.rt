//! Places for the kept halves of a store's sessions.

ghost use Rattle.std.specs.Prelude.{◌≡◌, IfOk};
ghost use Rattle.quota_store.specs.Halves.{AreEmptyPlaces};

use history_seats::KeptSeat;
use std::alloc::Global;
use tee_types::{MAX_SESSIONS, NoMemory};

/// Places for the kept halves of as many sessions as a store may have, all of them empty.
#[derive(Drop)]
pub(crate) struct EmptyPlaces {
    places: Vec<Option<KeptSeat>>,
    ghost empty: { AreEmptyPlaces places.items },
}

// The places themselves.
fn make_places(alloc: Global) -> Result<Vec<Option<KeptSeat>>, NoMemory>
    ensures { IfOk result (λ places. AreEmptyPlaces places.items) }
{
    let mut places = Vec::with_capacity(alloc, MAX_SESSIONS)?;
    for _ in 0..MAX_SESSIONS {
        places.push(None)?;
    }
    Ok(places)
}

impl EmptyPlaces {
    /// Makes them.
    ///
    /// # Errors
    ///
    /// Memory ran out.
    pub(crate) fn make(alloc: Global) -> Result<EmptyPlaces, NoMemory> {
        Ok(EmptyPlaces {
            places: make_places(alloc)?,
        })
    }

    /// The places.
    pub(crate) fn into_places(self) -> Vec<Option<KeptSeat>>
        ensures { AreEmptyPlaces result.items }
    {
        let EmptyPlaces { places } = self;
        places
    }
}
