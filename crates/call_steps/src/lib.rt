//! The steps that calls are made of, on one thread and on many.
//!
//! - At the gate alone (`gate_answers`): a misuse is answered at once; else a commit in doubt is resolved first (`doubt_settling`), and where
//!   that fails the answer says why; what directory, open handles and session decide is answered by the rules.
//! - With the object's file: a session and the slot are shown the history (`slot_catch_up`), the object is loaded with the slot alone
//!   (`object_loading`), and a Read, an Info or an Open is answered from it (`read_call`, `info_call`, `open_call`).
//! - A commit (`object_commit`): what a slot has staged is brought to the gate, and the slot does with its stage what the commit's end asks.
//!
//! Laws say that these steps are the core machine's (`core_move_laws`), that what is brought may be committed (`commit_laws`), and that the
//! counts of faults which replies carry rise as the devices' do (`count_laws`).
#![tactic(auto)]

mod answer_appending;
mod call_rulings;
mod commit_laws;
mod core_move_laws;
mod count_laws;
mod doubt_settling;
mod doubt_waits;
mod fault_replies;
mod forecasting;
mod gate_answers;
mod info_call;
mod object_commit;
mod object_loading;
mod open_call;
mod read_call;
mod replies;
mod rule_answers;
mod session_calls;
mod slot_catch_up;
mod stage_ends;

pub use answer_appending::tell;
pub use call_rules::Held;
pub use commit_gate::{
    Closing, CommitEnd, DoubtedChange, EntryChange, GuardedGate, Journal, PlacedReply, Resolved,
    Session, SessionMove, retire_session,
};
pub use commit_laws::{
    commits_end_slots, creates_may_commit, deletes_may_commit, ended_slots_are_guarded,
    handles_are_own, new_seats_are_guarded, new_slots_are_committable, renames_may_commit,
    shown_seats_see_whole, staged_slots_are_committable, stages_are_versions,
    truncations_may_commit, whole_slots_are_committable, writes_may_commit,
};
pub use core_move_laws::{
    answers_are_steps, guarded_gates_rest, guarded_steps_are_moves, handed_slots_show,
    object_commits_are_steps, released_files_are_steps, reserved_files_are_steps,
    resolved_doubts_are_steps,
};
pub use count_laws::{rising_counts_are_above, rising_counts_are_apart, rising_counts_are_bounded};
pub use doubt_settling::settle;
pub use doubt_waits::held_up;
pub use fault_replies::fault_reply;
pub use forecasting::forecast;
pub use gate_answers::answer_alone;
pub use info_call::{answer_info, describe_live, describe_object, info};
pub use object_commit::commit_change;
pub use object_loading::load_or_reply;
pub use object_slots::{
    GuardedSlot, Slot, SlotFault, SlotParts, check_truncate, check_write, stage_new,
    stage_truncate, stage_write,
};
pub use open_call::{answer_open, open};
pub use read_call::{answer_read, read, read_live, read_object};
pub use replies::{copied, twice};
pub use rule_answers::answer_ruled;
pub use slot_catch_up::{catch_up_entry, catch_up_slot};
pub use stage_ends::settle_slot;
