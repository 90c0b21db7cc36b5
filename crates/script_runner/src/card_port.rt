// A card on the heap.

ghost use Rattle.std.specs.Prelude.{◌≡◌, [], IfOk, IsTrue, Some};
ghost use Rattle.rpmb_card.specs.Arms.{no_arms};
ghost use Rattle.script_runner.specs.Port.{card_port_state};

use rpmb_card::{CardRig, NoMemory, RpmbPort, SimCard, SimPort};
use std::alloc::{AllocError, Global};
use tee_ports::Failed;

/// A port to a simulated card, which lies on the heap: its 256 blocks are not moved with the bench.
#[derive(Drop)]
pub struct CardPort {
    port: Box<SimPort>,
}

impl CardPort {
    /// A port to this card, with no fault armed.
    ///
    /// # Errors
    ///
    /// Memory ran out.
    pub fn new(alloc: Global, card: SimCard) -> Result<CardPort, AllocError>
        ensures card { IfOk result (λ port. (card_port_state port).card ≡ Some card) }
        ensures calm { IfOk result (λ port. IsTrue (card_port_state port).calm) }
        ensures arms { IfOk result (λ port. (card_port_state port).arms ≡ no_arms) }
        ensures faults { IfOk result (λ port. (card_port_state port).faults ≡ 0) }
        ensures heard { IfOk result (λ port. (card_port_state port).heard ≡ []) }
    {
        let port = Box::new(alloc, SimPort::new(alloc, card))?;
        Ok(CardPort { port })
    }

    /// The card, as it is.
    pub fn into_card(self) -> SimCard
        ensures { Some result ≡ (card_port_state self).card }
    {
        Box::into_inner(self.port).into_card()
    }
}

impl RpmbPort for CardPort {
    ghost use Rattle.std.specs.Prelude.{box_value};
    ghost use Rattle.rpmb_card.specs.SimPort.{port_sound};
    ghost use Rattle.script_runner.specs.Port.{card_port_state};

    ghost state = { card_port_state };

    ghost sound = { λ port. port_sound (box_value port.port) };

    fn exchange(&mut self, frame: &[u8; 512]) -> Result<[u8; 512], Failed> {
        self.port.exchange(frame)
    }
}

impl CardRig for CardPort {
    fn stop_after(&mut self, calls: u64) {
        self.port.stop_after(calls);
    }

    fn fail_call(&mut self, call: u64) -> Result<(), NoMemory> {
        self.port.fail_call(call)
    }

    fn lose_call(&mut self, call: u64) -> Result<(), NoMemory> {
        self.port.lose_call(call)
    }

    fn disarm(&mut self) {
        self.port.disarm();
    }
}
