//! The fifteen calls of a served store, each whole, over the gate and a slot of each object's file.
//!
//! `serve` takes a call to the gate first, which answers a misuse at once, resolves a commit in doubt, and answers what needs no object. Of a
//! call on an object the rules decide from directory, open handles and session; what they leave needs the slot of the object's file. Read,
//! Info and Open are those of `call_steps`. The calls that change something are here, whole and in the steps that `shared_calls` takes
//! one by one:
//!
//! - Write and Truncate: what the machine answers whatever the bytes are is answered first (`early_answers`). Else the change is staged in
//!   the object's file with the slot alone (`write_object`, `truncate_object`), session and slot are shown what came meanwhile, and the
//!   stage is committed, or the reply says why there is none (`answer_write`, `answer_truncate`). Where no commit can follow nothing is
//!   staged: the blocks are read that the change needs, and that is told (`write_spent`, `truncate_spent`).
//! - Rename and Delete change the directory alone.
//! - Create: under the gate's lock `reserve` lets the session hold a free file, and `clear` lets go of what its slot holds. On the slot alone
//!   `make` makes the object, unless the card's counter is spent (`make_unless_spent`). At the gate again `finish` gives the slot a new seat
//!   and puts the entry by one commit; `give_back` ends the session's hold, unless the commit is in doubt; `give_up` lets go of an object
//!   that the rules no longer let pass. An object that the new one replaces has a file of its own, whose slot needs nothing.
#![tactic(auto)]

mod calls;
mod change_check;
mod create_call;
mod create_commit;
mod create_failure;
mod create_file;
mod create_object;
mod create_replies;
mod create_seat;
mod create_slot;
mod data_calls;
mod delete_call;
mod early_answers;
mod failure_replies;
mod file_slots;
mod handle_calls;
mod name_calls;
mod new_object;
mod quota_calls;
mod quota_outcome;
mod read_calls;
mod rename_call;
mod reply_appending;
mod ruled_calls;
mod stage_catch_up;
mod stage_commit;
mod stage_result;
mod truncate_call;
mod write_call;

pub use call_steps::{
    Closing, CommitEnd, EntryChange, GuardedGate, GuardedSlot, Journal, PlacedReply, Session, Slot,
    SlotParts, answer_alone, answer_info, answer_open, answer_read, answer_ruled, catch_up_entry,
    describe_live, describe_object, forecast, load_or_reply, read_live, read_object,
    retire_session,
};
pub use calls::serve;
pub use core_laws::StoreName;
pub use create_call::create;
pub use create_commit::finish;
pub use create_failure::CreateFailure;
pub use create_file::{give_back, reserve};
pub use create_object::{give_up, make, make_unless_spent};
pub use create_slot::clear;
pub use delete_call::delete;
pub use early_answers::answer_meant;
pub use new_object::NewObject;
pub use quota_calls::serve_within;
pub use quota_outcome::QuotaOutcome;
pub use rename_call::rename;
pub use stage_catch_up::catch_up_staged;
pub use stage_result::Staged;
pub use truncate_call::{answer_truncate, truncate, truncate_object, truncate_spent};
pub use write_call::{answer_write, write, write_object, write_spent};
