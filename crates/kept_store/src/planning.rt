//! What is done about the store of a folder, by what lies there.

ghost use Rattle.std.specs.Prelude.{◌≡◌, IfErr};
ghost use Rattle.kept_store.specs.Kept.{TellsNoTag};
ghost use Rattle.kept_store.specs.Plans.{plan_of, seen_of};

use crate::fault::OpenFault;

/// What lies in a folder, by which of three files have bytes.
#[derive(Clone, Copy, Debug, PartialEq, Eq)]
pub enum Seen {
    /// Neither a card, nor an exported block, nor a directory.
    Nothing,
    /// A directory alone.
    Directory,
    /// An exported block, and no card.
    Export,
    /// A card.
    Card,
}

/// What is asked of the store of a folder.
#[derive(Clone, Copy, Debug, PartialEq, Eq)]
pub enum Asked {
    /// The store that is there.
    Open,
    /// A new store, where there is none.
    Create,
    /// Either.
    OpenOrCreate,
}

/// How its card is come by.
#[derive(Clone, Copy, Debug, PartialEq, Eq)]
pub enum CardPlan {
    /// It is made.
    MakeCard,
    /// It is read from its file.
    OpenCard,
}

/// What lies in a folder in which these files have bytes, or not.
pub fn seen_of(card: bool, block: bool, directory: bool) -> Seen
    ensures { result ≡ seen_of card block directory }
{
    match (card, block, directory) {
        (true, _, _) => Seen::Card,
        (false, true, _) => Seen::Export,
        (false, false, true) => Seen::Directory,
        (false, false, false) => Seen::Nothing,
    }
}

/// What is done where this lies in the folder: a card is made only where there is none, and no
/// directory without one.
///
/// # Errors
///
/// `NoStore` where nothing is there to be opened; `Exists` where something is there and a new store
/// is asked; `CardMissing` where a directory is there alone.
pub fn plan_of(asked: Asked, seen: Seen) -> Result<CardPlan, OpenFault>
    ensures plan { result ≡ plan_of asked seen }
    ensures untagged { IfErr result TellsNoTag }
{
    match (asked, seen) {
        (Asked::Create | Asked::OpenOrCreate, Seen::Nothing) => Ok(CardPlan::MakeCard),
        (Asked::Create, _) => Err(OpenFault::Exists),
        (Asked::Open, Seen::Nothing) => Err(OpenFault::NoStore),
        (_, Seen::Directory) => Err(OpenFault::CardMissing),
        (_, Seen::Export) => Ok(CardPlan::MakeCard),
        (_, Seen::Card) => Ok(CardPlan::OpenCard),
    }
}
