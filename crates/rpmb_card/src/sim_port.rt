// A port to a simulated card.

ghost use Rattle.std.specs.Prelude.{length, ◌≤◌, ◌<◌, ◌^◌};
ghost use Rattle.rpmb_card.specs.Card.{IsCard};

use crate::arms::{ArmedCalls, Fate};
use crate::heard::Heard;
use crate::{CardRig, NoMemory, RpmbPort, SimCard};
use std::alloc::Global;
use tee_ports::Failed;

/// A port to a simulated card, with chosen exchanges that fail.
#[derive(Drop)]
pub struct SimPort {
    card: SimCard,
    heard: Heard,
    arms: ArmedCalls,
    faults: u64,
    ghost card_sound: { IsCard card },
    ghost heard_few: { length heard ≤ 3 },
    ghost faults_fit: { faults < 2 ^ 64 },
}

impl SimPort {
    ghost use Rattle.std.specs.Prelude.{◌≡◌, [], Some};
    ghost use Rattle.tee_ports.specs.Faults.{next_count};
    ghost use Rattle.rpmb_card.specs.Arms.{no_arms};
    ghost use Rattle.rpmb_card.specs.SimPort.{port_state};

    /// A port to this card, with no fault armed. Arming takes memory from `alloc`.
    pub fn new(alloc: Global, card: SimCard) -> SimPort
        ensures card { (port_state result).card ≡ Some card }
        ensures heard { (port_state result).heard ≡ [] }
        ensures arms { (port_state result).arms ≡ no_arms }
        ensures faults { (port_state result).faults ≡ 0 }
    {
        // What is known of every card is known once a field is read.
        let _ = &card.key;
        SimPort {
            card,
            heard: Heard::new(),
            arms: ArmedCalls::new(alloc),
            faults: 0,
        }
    }

    /// The card, as it is.
    pub fn into_card(self) -> SimCard
        ensures { Some result ≡ (port_state self).card }
    {
        self.card
    }

    // Counts one more fault.
    fn fail(&mut self) -> Failed
        ensures counted { port_state self.new ≡ record (port_state self.old) { faults = next_count (port_state self.old).faults } }
        ensures carried { result.count ≡ (port_state self.new).faults }
    {
        self.faults = self.faults.saturating_add(1);
        Failed { count: self.faults }
    }
}

impl RpmbPort for SimPort {
    ghost use Rattle.rpmb_card.specs.SimPort.{port_sound, port_state};

    ghost state = { port_state };

    ghost sound = { port_sound };

    fn exchange(&mut self, frame: &[u8; 512]) -> Result<[u8; 512], Failed> {
        // What is known of every card is known once a field is read.
        let card = &self.card;
        let _ = &card.key;
        match self.arms.next() {
            Fate::Passes => {
                let answer = self.card.answer(frame);
                self.heard.push(answer);
                Ok(answer)
            }
            Fate::Fails => Err(self.fail()),
            Fate::Loses => {
                let _ = self.card.answer(frame);
                Err(self.fail())
            }
        }
    }
}

impl CardRig for SimPort {
    fn stop_after(&mut self, calls: u64) {
        self.arms.stop_after(calls);
    }

    fn fail_call(&mut self, call: u64) -> Result<(), NoMemory> {
        self.arms.fail_call(call)
    }

    fn lose_call(&mut self, call: u64) -> Result<(), NoMemory> {
        self.arms.lose_call(call)
    }

    fn disarm(&mut self) {
        self.arms.disarm();
    }
}
