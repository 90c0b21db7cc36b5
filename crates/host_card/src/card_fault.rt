// Why there is no card.
ghost use Rattle.std.specs.Prelude.{◌≡◌};

use tee_ports::Failed;
use thiserror::Error;

/// Why a card was not read from a file, or not made in it.
#[derive(Clone, Copy, Debug, PartialEq, Eq, Error)]
pub enum CardFault {
    /// The file failed; its count of faults.
    #[error("the card's file failed")]
    Failed { count: u64 },
    /// The file to open has no bytes.
    #[error("the card's file has no bytes")]
    NoCard,
    /// The file to make a card in has bytes; how many.
    #[error("the file for a new card has {length} bytes")]
    NotEmpty { length: u64 },
    /// The file is shorter than a card's file, or begins with other bytes.
    #[error("the file is no card's file")]
    Foreign,
    /// The file is that of a card with another key.
    #[error("the card's file was made with another key")]
    OtherKey,
    /// Of this block neither version is a request, and neither is clear.
    #[error("the card's block {address} is damaged")]
    Damaged { address: u8 },
    #[error("out of memory")]
    NoMemory,
}

impl From<Failed> for CardFault {
    ghost use Rattle.host_card.specs.declared.card_fault.CardFault.TheVariants.{Failed};

    ghost from_gives = { λ failed fault. fault ≡ Failed failed.count };

    fn from(failed: Failed) -> CardFault {
        CardFault::Failed {
            count: failed.count,
        }
    }
}
