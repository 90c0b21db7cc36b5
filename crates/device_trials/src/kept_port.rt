// A port that keeps the frames that it is given.

use rpmb_card::{CardRig, NoMemory, RpmbPort, WRITE_BLOCK};
use rpmb_frame::Frame;
use std::alloc::Global;
use tee_ports::Failed;
use trial_runs::CardPort;

/// A port to a simulated card that keeps each frame that it is given, while there is memory.
#[derive(Drop)]
pub struct KeptPort {
    port: CardPort,
    frames: Vec<[u8; 512]>,
}

impl KeptPort {
    /// A port that keeps the frames for that one.
    pub fn new(alloc: Global, port: CardPort) -> KeptPort {
        KeptPort {
            port,
            frames: Vec::new(alloc),
        }
    }

    /// The frames, in order.
    pub fn frames(&self) -> &[[u8; 512]] {
        self.frames.as_slice()
    }

    /// How many of them write a block.
    pub fn writes(&self) -> usize {
        self.frames
            .iter()
            .filter(|frame| Frame::parse(frame).kind == WRITE_BLOCK)
            .count()
    }
}

impl RpmbPort for KeptPort {
    ghost use Rattle.std.specs.Prelude.{box_value};
    ghost use Rattle.rpmb_card.specs.SimPort.{port_sound};
    ghost use Rattle.trial_runs.specs.Port.{card_port_state};

    ghost state = { λ p. card_port_state p.port };

    ghost sound = { λ p. port_sound (box_value p.port.port) };

    fn exchange(&mut self, frame: &[u8; 512]) -> Result<[u8; 512], Failed> {
        let _ = self.frames.push(*frame);
        self.port.exchange(frame)
    }
}

impl CardRig for KeptPort {
    fn stop_after(&mut self, calls: u64) {
        self.port.stop_after(calls);
    }

    fn fail_call(&mut self, call: u64) -> Result<(), NoMemory> {
        self.port.fail_call(call)
    }

    fn lose_call(&mut self, call: u64) -> Result<(), NoMemory> {
        self.port.lose_call(call)
    }

    fn disarm(&mut self) {
        self.port.disarm();
    }
}
