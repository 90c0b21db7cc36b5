//! What holds of the texts of soaks. No code.

ghost use Rattle.seed_words.specs.Laws.{SoakTextsAreScripts};

/// The text of a soak is in the grammar of scripts, and means its script.
#[tactic(auto, using(crate::proofs::SoakTexts::soak_texts_are_scripts))]
pub fn soak_texts_are_scripts()
    ensures { SoakTextsAreScripts }
{}
