// Frames from which requests and answers are made.

ghost use Rattle.std.specs.Prelude.{◌≡◌};
ghost use Rattle.rpmb_card.specs.EmptyFrame.{empty_frame};

use rpmb_frame::Frame;

/// The frame whose every field is zero.
#[tactic(auto, unfolding(crate::specs::EmptyFrame::empty_frame))]
pub fn empty_frame() -> Frame
    ensures { result ≡ empty_frame }
{
    Frame {
        stuff: [0; 196],
        key_or_mac: [0; 32],
        block: [0; 256],
        nonce: [0; 16],
        counter: 0,
        address: 0,
        count: 0,
        result: 0,
        kind: 0,
    }
}
