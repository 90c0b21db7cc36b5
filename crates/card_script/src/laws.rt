//! Laws of scripts. Each function does nothing: its contract is the law.

ghost use Rattle.card_script.specs.CardLaws.{LinesReadAgain};

/// A line that carries a name, bytes and a number of the right sizes is read again from its printed words.
#[tactic(auto, using(crate::proofs::ReadAgain::lines_read_again))]
pub fn printed_lines_read_again()
    ensures { LinesReadAgain }
{}
