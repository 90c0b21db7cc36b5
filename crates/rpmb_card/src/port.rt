// The way to a card.

ghost use Rattle.rpmb_card.specs.Port.{Exchanged, PortState, Sound};

use tee_ports::Failed;

/// A port that carries frames to a card of the replay-protected memory block and brings its answers.
pub trait RpmbPort {
    // What is known of the port, its card included where it tells one.
    ghost state: { Self → PortState };

    /// Sends a frame and gives the frame that came as the answer.
    ///
    /// # Errors
    ///
    /// `Failed` with the count of faults, which rose in this call. The card may or may not have taken the frame.
    fn exchange(&mut self, frame: &[u8; 512]) -> Result<[u8; 512], Failed>
        ensures { Exchanged (state self.old) (state self.new) frame.now result };

    // What holds of every port.
    ghost sound: { (port : Self) → Sound (state port) };
}
