//! A script that was read, and the replies to its lines.

use std::alloc::Global;
use std::marker::Model;
use tee_types::{AppId, Bytes, NoMemory, ObjectId};

/// A line of a script that is not skipped.
#[derive(Debug, Drop)]
pub enum CardLine {
    /// An object is written, in the place of one that has its name.
    Put {
        /// The application.
        app: AppId,
        /// The identifier of the object.
        id: ObjectId,
        /// The bytes of the object.
        bytes: Bytes,
    },
    /// An object is read.
    Get {
        /// The application.
        app: AppId,
        /// The identifier of the object.
        id: ObjectId,
    },
    /// An object is removed.
    Remove {
        /// The application.
        app: AppId,
        /// The identifier of the object.
        id: ObjectId,
    },
    /// The names and sizes of all objects are shown.
    List,
    /// The card passes so many exchanges, and fails all later ones.
    Stop(u32),
    /// The card is disarmed, and the store is mounted anew.
    Remount,
}

/// The reply to a line.
#[derive(Debug, Drop)]
pub enum CardReply {
    /// Done; nothing to give but the names that `list` shows.
    Done,
    /// Done: the bytes of the object.
    Content(Bytes),
    /// There is no object of that name.
    NotFound,
    /// The object would have more than 16,384 bytes.
    TooLarge {
        /// How many it would have.
        size: u64,
    },
    /// The object needs more blocks than are free.
    Full {
        /// How many it needs.
        need: u16,
        /// How many are free.
        free: u16,
    },
    /// The card's write counter leaves no room for the call.
    Spent,
    /// The card or the generator of nonces failed, or the card's answer is not the wanted one.
    Device,
}

/// A script: its lines, without those that are skipped. A contract sees them as a list.
#[derive(Debug, Drop)]
pub struct CardScript {
    lines: Vec<CardLine>,
}

impl Model for CardScript {
    ghost use Rattle.std.specs.Prelude.{List};
    ghost use Rattle.card_script.specs.declared.card_line.CardLine.{CardLine};

    ghost Value = { List CardLine };

    ghost view = { λ a. a.lines.items };
}

impl CardScript {
    ghost use Rattle.std.specs.Prelude.{◌≡◌, [], ◌∷◌, ◌++◌, OnOk};

    /// A script without lines.
    pub(crate) fn new(alloc: Global) -> CardScript
        ensures { result ≡ [] }
    {
        CardScript {
            lines: Vec::new(alloc),
        }
    }

    /// Adds a line at the end.
    pub(crate) fn add(&mut self, line: CardLine) -> Result<(), NoMemory>
        ensures { OnOk result (self.new ≡ self.old ++ line ∷ []) }
    {
        self.lines.push(line)?;
        Ok(())
    }

    /// The lines, in order.
    pub fn lines(&self) -> &[CardLine]
        ensures { result.now ≡ self.now }
    {
        self.lines.as_slice()
    }
}
