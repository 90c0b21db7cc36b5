//! Laws of scripts. Each function does nothing: its contract is the law.

ghost use Rattle.script_text.specs.Laws.{MarksAreSaved, ScriptsCallWell};

/// The calls of a script carry identifiers and bytes, and its controls devices of the bench, marks, masks and quotas.
#[tactic(auto, using(crate::proofs::FormedSteps::scripts_call_well))]
pub fn scripts_call_well()
    ensures { ScriptsCallWell }
{}

/// What a script puts back was saved above.
#[tactic(auto, using(crate::proofs::FormedSteps::marks_are_saved))]
pub fn marks_are_saved()
    ensures { MarksAreSaved }
{}
