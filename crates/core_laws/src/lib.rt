//! Laws of the store's core: the parts of the core machine, what one history says of a store whatever its files are, and how the
//! directory's entries are tied to that history. Definitions and laws alone, and the trait by whose types a store is named.
//!
//! - Parts (`part_laws`): what stands behind each lock, and what each part knows of the core machine. A slot stands for its file, the gate for
//!   the directory, the card, the commit that is pending and the history. Moves of all parts in any order are one run of the machine.
//! - Files that are not honest (`tamper_laws`): nobody knows before the end of a phase which files will then be honest. So what is said of the
//!   machine, of the map of its objects and of its sessions is said under each tamper scenario on them. At the end one is chosen.
//! - Ties (`tie_laws`): the gate has the entries of the directory by their places; the history says, by names, which file and which version
//!   each object has. That both say the same holds at the opening, and each kind of event keeps it.
#![tactic(auto)]

mod part_laws;
mod store_name;
mod tamper_laws;
mod tie_laws;

pub use crash_core::EntryChange;
pub use part_laws::{
    commits_keep_listed, directory_runs_are_steps, file_runs_are_steps, finish_mounts,
    honest_finish_mounts, moves_are_a_run, openings_hold, own_events_keep, parts_are_a_core,
    renewed_slots_hold, seals_are_steps, slot_steps_keep,
};
pub use store_name::StoreName;
pub use tamper_laws::{
    alike_trees_are_same, answered_histories_are_legal, answered_landings_are_due,
    answers_are_by_event, calls_extend_sessions, calm_sessions_stand, creates_keep_maps,
    deletes_keep_maps, doubtful_changes_keep_maps, doubtful_sessions_stand, drops_keep_maps,
    entries_have_objects, entries_tag_calls, fair_histories_are_answered, fair_histories_are_legal,
    fairness_is_by_event, free_files_tag_creates, honest_files_stand, images_hold_real_versions,
    landings_keep_maps, legal_events_are_legal, legal_histories_damage_none,
    listed_entries_are_apart, listed_entries_are_named, made_changes_keep_maps,
    made_sessions_stand, masks_on_blocks_show_no_other, nothing_comes_back,
    one_reference_names_one_tree, openings_are_in_step, own_events_are_by_event, renames_keep_maps,
    scenarios_are_verified, scenarios_keep_good, scenarios_keep_sizes, scenarios_mend,
    sessions_are_applications, sessions_renew, told_replies_are_answered,
    truncations_are_due_or_end, truncations_stand_or_stray, unchanged_events_keep_maps,
    unchanged_sessions_stand, undamaged_ends_clash, unmasked_files_end_nothing,
    unmasked_files_show_no_clash, unmet_pages_stay, views_tell_sessions, writes_are_due_or_end,
    writes_stand_or_stray,
};
pub use tie_laws::{
    applications_stay, commit_tags_are_right, commits_are_legal, commits_keep_maps,
    commits_make_entries, doubtful_commits_keep_ties, drops_keep_ties, due_changes_are_commits,
    landings_are_legal, landings_keep_ties, made_commits_keep_ties, matched_entries_tell,
    open_doubts_are_held, openings_are_tied, replays_rise, tied_commits_make_entries,
    tied_entries_tell, unchanged_events_keep_ties, unchanged_tags_are_right,
    unmade_commits_are_legal, unresolved_calls_are_legal, whole_versions_stand,
};
