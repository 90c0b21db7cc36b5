//! Trusted storage in one place: what is promised, in few words. Nothing runs here.
//!
//! Read `specs/` in this order. `Objects`, `Commits` and `Replies` are the store on one thread, what its history leaves, and what one reply may
//! be. `PowerCuts`, `Devices` and `Benches` are what a power cut leaves, what is presumed of the devices, and what they hold. `Altered` is what
//! altered and older files may give, `Runs` a run of phases, `Quotas` what its phases keep of quotas, and `Blame` whom their replies may accuse.
//! `Laws` has the promises. Each law takes of the program what the contract of a public call says, and says in these words what that means.
#![tactic(auto)]

mod laws;

pub use laws::{
    altered_files_agree, altered_phases_are_legal, calls_are_served_once, card_runs_are_of_a_map,
    certificates_hold, cuts_at_exit, cuts_between_acts, cuts_inside_phases, cuts_keep,
    migrations_keep_objects, next_runs_find_left, phases_end_legal, phases_keep_quotas,
    quiet_runs_are_done, replies_accuse_rightly, replies_are_legal, runs_are_fresh,
    runs_without_quotas_fit, runs_write_their_records, service_calls_stand, shared_calls_stand,
    statuses_have_causes, what_is_left_is_found,
};
