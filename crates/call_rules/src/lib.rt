//! What each of the fifteen calls is answered, as far as the directory, the open handles and the caller's session tell.
//!
//! The rules look at no object's file. A call that they answer whole is answered as the machine answers it, whatever the files hold; of
//! any other they say what the machine's answer is, as a function of the object.
//!
//! That the rules can know it is the laws' part (`laws`): the map of objects has the names and the sizes of the directory's entries, and the
//! table has the open handles of the machine's sessions.
#![tactic(auto)]

mod by_handle;
mod catalog;
mod close_call;
mod create_call;
mod decision;
mod delete_call;
mod enumerator_calls;
mod growth;
mod info_call;
mod laws;
mod open_call;
mod read_call;
mod rename_call;
mod seek_call;
mod truncate_call;
mod write_call;

pub use catalog::Catalog;
pub use close_call::close;
pub use create_call::create;
pub use decision::{Decision, NewPlace, OpenObject};
pub use delete_call::delete;
pub use dir_index::Held;
pub use enumerator_calls::{enum_free, enum_new, enum_next, enum_reset, enum_start};
pub use growth::grown;
pub use info_call::info;
pub use laws::events::{
    doubtful_events_keep_open, landed_events_keep_open, made_events_keep_open,
    unchanged_events_keep_open,
};
pub use laws::handles::{
    answered_handles_are_well_opened, calls_keep_well_opened, landings_keep_well_opened,
    legal_doubts_are_due, openings_are_well_opened, replays_keep_well_opened,
};
pub use laws::opens::{
    answered_calls_keep_open, drops_take_one_record, landed_commits_keep_open,
    made_commits_keep_open, openings_are_open, undone_calls_keep_open,
};
pub use laws::shapes::{
    applications_are_listed, changes_keep_shape, free_places_are_room, held_names_are_listed,
    landed_entries_have_shape, mapped_entries_have_shape, named_entries_are_objects,
    next_entries_are_next_objects, objects_are_entries, objects_fit_entries, totals_are_of_entries,
};
pub use laws::sharing::{files_allow_as_names, files_are_open_as_names};
pub use open_call::open;
pub use read_call::read;
pub use rename_call::rename;
pub use seek_call::seek;
pub use truncate_call::{truncate, truncate_refusal};
pub use write_call::{write, write_refusal};
