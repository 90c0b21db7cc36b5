// The frames that were heard last.

ghost use Rattle.std.specs.Prelude.{◌≡◌, [], length, ◌≤◌};
ghost use Rattle.rpmb_card.specs.Port.{heard_after};

use arrayvec::ArrayVec;
use std::marker::Model;

/// The last three frames that came as answers, the latest last.
#[derive(Drop)]
pub struct Heard {
    frames: ArrayVec<[u8; 512], 3>,
}

impl Model for Heard {
    ghost use Rattle.std.specs.Prelude.{ℕ, List};

    ghost Value = { List (List ℕ) };

    ghost view = { λ h. h.frames.items };
}

impl Heard {
    /// None yet.
    pub fn new() -> Heard
        ensures { result ≡ [] }
    {
        Heard {
            frames: ArrayVec::new(),
        }
    }

    /// One more.
    pub fn push(&mut self, answer: [u8; 512])
        ensures { self.new ≡ heard_after self.old answer }
    {
        if self.frames.is_full() {
            self.frames.remove(0);
        }
        self.frames.push(answer);
    }
}
