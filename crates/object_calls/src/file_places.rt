// The places that the files of objects come to as a phase ends.

ghost use Rattle.std.specs.Prelude.{◌≡◌, ◌-◌, ◌≤◌, All, IfOk, IsSome, Some, map, slice_set, vec_len};
ghost use Rattle.std.specs.Vec.{vec_capacity};
ghost use Rattle.object_calls.specs.SlotPlaces.{AreFree};

use crate::seat_splitting::reversed;
use std::alloc::Global;
use tee_types::{MAX_FILE, NoMemory};

/// A place for each file of an object, all of them free.
///
/// # Errors
///
/// Memory ran out.
pub(crate) fn free_places<F: Drop>(alloc: Global) -> Result<Vec<Option<F>>, NoMemory>
    ensures { IfOk result (λ places. AreFree places.items) }
{
    let mut places = Vec::with_capacity(alloc, usize::from(MAX_FILE))?;
    for _ in 0..MAX_FILE {
        places.push(None)?;
    }
    Ok(places)
}

/// Puts the file of that number to its place. A file that was there falls.
pub(crate) fn put_file<F: Drop>(places: &mut Vec<Option<F>>, number: u16, file: F)
    requires { (1 ≤ number) × (number ≤ vec_len places.old) }
    ensures { places.new.items ≡ slice_set places.old.items (number - 1) (Some file) }
{
    places[usize::from(number) - 1] = Some(file);
}

/// Takes the files out of their places into the room, file 1 first.
pub(crate) fn taken_files<F: Drop>(places: Vec<Option<F>>, room: Vec<F>) -> Vec<F>
    requires full { All (λ place. IsSome place) places.items }
    requires empty { vec_len room ≡ 0 }
    requires room { vec_len places ≤ vec_capacity room }
    ensures files { map (λ f. Some f) result.items ≡ places.items }
    ensures len { vec_len result ≡ vec_len places }
    ensures capacity { vec_capacity room ≤ vec_capacity result }
{
    let mut left = reversed(places);
    let mut files = room;
    while let Some(place) = left.pop() {
        let Some(file) = place else { unreachable!() };
        files.push(file).unwrap();
    }
    files
}
