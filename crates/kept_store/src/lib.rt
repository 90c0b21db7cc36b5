//! A store that outlives the process: its files lie in a folder of the host, and one more file
//! there keeps its card.
//!
//! Make the folder first. `create_folder_store` makes a store in it, `open_folder_store` opens the
//! one that is there, and `open_or_create_folder_store` does what is wanted. A store that `tee_run
//! export` put there is taken over with the block that was exported beside it. What they give is an
//! `Opening`, as every mounted store is. When its phase is closed, each change that was answered
//! `Done` is in the folder, and the next process opens it. `read_folder_store` opens it only to be
//! read, and `inspect_folder_store` tells what is in it: they change no byte and make no file.
//!
//! The folder is locked for as long as a store in it is open: who opens it meanwhile by these calls
//! is told so. Several may read it at once. The keys are never in the folder.
//!
//! A card that a file keeps gives no protection from older copies: whoever puts an older folder
//! back puts the older card back with it. In a device a real card stands in its place.
#![tactic(auto)]

mod devices;
mod fault;
mod finding;
mod folder;
mod inspecting;
mod opening;
mod planning;
mod reading;
mod taking_over;

pub use fault::{OpenFault, Unopened};
pub use folder::{
    FolderOpening, create_folder_store, open_folder_store, open_or_create_folder_store,
};
pub use host_folder::CARD_FILE;
pub use inspecting::{Report, inspect_folder_store};
pub use opening::open_devices;
pub use planning::{Asked, CardPlan, Seen, plan_of, seen_of};
pub use reading::{ReadOpening, read_folder_store};
