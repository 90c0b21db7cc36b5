// The host.

ghost use Rattle.std.specs.Prelude.{◌≡◌, ◌≢◌, ◌≤◌, ◌↔◌, ◌⊎◌, false, IfOk, IsTrue, Some};
ghost use Rattle.rpmb_card.specs.Card.{CardState};
ghost use Rattle.rpmb_card.specs.Protocol.{last_counter};
ghost use Rattle.rpmb_card.specs.Port.{Exchanged};
ghost use Rattle.rpmb_host.specs.Requests.{block_request, counter_request, write_request};
ghost use Rattle.rpmb_host.specs.declared.fault.HostFault.TheVariants.{Spent};
ghost use Rattle.rpmb_host.specs.Honest.{HadCard, HasCard, IsWritten, card_block, card_write, written_card};
ghost use Rattle.rpmb_host.specs.Calls.{Counts, WriteExchanges, block_wanted, counter_wanted, has_failed, judged, received, told, write_wanted};

use crate::HostFault;
use crate::requests::{block_request, counter_request, result_request, write_request};
use crate::verdict::{Wanted, judge};
use hmac_keys::SecretKey;
use rpmb_card::{BLOCK_READ, BLOCK_WRITTEN, COUNTER_READ, CardRig, NoMemory, RpmbPort};
use rpmb_frame::Frame;
use std::marker::Model;

/// A host of a card: a port to the card, and the key that it shares with it.
///
/// Each call makes the exchanges that its contract names and no others. Contracts see the port and the key.
#[derive(Drop)]
pub struct Host<R: RpmbPort> {
    port: R,
    key: SecretKey,
}

impl<R: RpmbPort> Model for Host<R> {
    ghost use Rattle.rpmb_host.specs.Calls.{HostState};

    ghost Value = { HostState R };

    ghost view = { λ h. record { port = h.port; key = h.key } };
}

impl<R: RpmbPort> Host<R> {
    /// A host over this port, with this key. Nothing is sent.
    pub fn new(port: R, key: SecretKey) -> Host<R>
        ensures { result ≡ record { port = port; key = key } }
    {
        Host { port, key }
    }

    /// The port, as it is.
    pub fn into_port(self) -> R
        ensures { result ≡ self.port }
    {
        let Host { port, key: _ } = self;
        port
    }

    /// The card's write counter, by one exchange.
    ///
    /// # Errors
    ///
    /// `Failed` where the exchange failed, `BadFrame` where the frame that came is not the answer to this request and
    /// nonce, `CardResult` where the card refused.
    pub fn read_counter(&mut self, nonce: &[u8; 16]) -> Result<u32, HostFault>
        ensures exchanged { Exchanged (R.state self.old.port) (R.state self.new.port)
            (counter_request nonce.now) (received (R.state self.new.port) result) }
        ensures answer { result ≡ told (λ f. f.counter) (judged self.old.key
            (counter_wanted nonce.now) (received (R.state self.new.port) result)) }
        ensures unspent { result ≢ Err Spent }
        ensures key { self.new.key ≡ self.old.key }
        ensures counts { Counts (R.state self.old.port) (R.state self.new.port) result }
        ensures counted { (R.state self.old.port).faults ≤ (R.state self.new.port).faults }
        ensures calm { IsTrue (R.state self.old.port).calm
            → (has_failed result ≡ false) × IsTrue (R.state self.new.port).calm }

        // The card stays; one that has the host's key tells its counter, worn or not. A card that has the key afterwards had
        // it before.
        ensures stays { (R.state self.new.port).card ≡ (R.state self.old.port).card }
        ensures was { (card : CardState) → HasCard (R.state self.new.port) self.new.key card
            → HadCard (R.state self.old.port) self.old.key }
        ensures honest { (card : CardState) → HasCard (R.state self.old.port) self.old.key card
            → has_failed result ≡ false → result ≡ Ok card.counter }
    {
        let wanted = Wanted {
            kind: COUNTER_READ,
            nonce: Some(*nonce),
            counter: None,
            address: None,
        };
        let answer = self.ask(&counter_request(nonce), &wanted)?;
        Ok(answer.counter)
    }

    /// A block of the card, by one exchange.
    ///
    /// # Errors
    ///
    /// `Failed` where the exchange failed, `BadFrame` where the frame that came is not the answer to this request and
    /// nonce, `CardResult` where the card refused.
    pub fn read_block(&mut self, address: u16, nonce: &[u8; 16]) -> Result<[u8; 256], HostFault>
        ensures exchanged { Exchanged (R.state self.old.port) (R.state self.new.port)
            (block_request address nonce.now) (received (R.state self.new.port) result) }
        ensures answer { result ≡ told (λ f. f.block) (judged self.old.key
            (block_wanted address nonce.now) (received (R.state self.new.port) result)) }
        ensures unspent { result ≢ Err Spent }
        ensures key { self.new.key ≡ self.old.key }
        ensures counts { Counts (R.state self.old.port) (R.state self.new.port) result }
        ensures counted { (R.state self.old.port).faults ≤ (R.state self.new.port).faults }
        ensures calm { IsTrue (R.state self.old.port).calm
            → (has_failed result ≡ false) × IsTrue (R.state self.new.port).calm }

        // The card stays; one that has the host's key gives its block. A card that has the key afterwards had it before.
        ensures stays { (R.state self.new.port).card ≡ (R.state self.old.port).card }
        ensures was { (card : CardState) → HasCard (R.state self.new.port) self.new.key card
            → HadCard (R.state self.old.port) self.old.key }
        ensures honest { (card : CardState) → HasCard (R.state self.old.port) self.old.key card
            → has_failed result ≡ false → result ≡ card_block card address }
    {
        let wanted = Wanted {
            kind: BLOCK_READ,
            nonce: Some(*nonce),
            counter: None,
            address: Some(address),
        };
        let answer = self.ask(&block_request(address, nonce), &wanted)?;
        Ok(answer.block)
    }

    /// Writes a block of the card, whose write counter the caller knows, and gives the counter after it. Two exchanges:
    /// the write, and if it was answered the read of its result.
    ///
    /// # Errors
    ///
    /// `Spent` where the counter is at its end; then nothing is sent. `Failed` where an exchange failed, `BadFrame` where
    /// the frame that came is not the result of this write, `CardResult` where the card refused.
    pub fn write_block(
        &mut self,
        address: u16,
        counter: u32,
        block: &[u8; 256],
    ) -> Result<u32, HostFault>
        ensures spent { (result ≡ Err Spent) ↔ (counter ≡ last_counter) }
        ensures unsent { counter ≡ last_counter → self.new ≡ self.old }

        ensures exchanged { counter ≢ last_counter → WriteExchanges (R.state self.old.port)
            (R.state self.new.port) (write_request self.old.key address counter block.now)
            (received (R.state self.new.port) result) }
        ensures answer { counter ≢ last_counter → result ≡ told (λ f. f.counter)
            (judged self.old.key (write_wanted address counter) (received (R.state self.new.port) result)) }
        ensures key { self.new.key ≡ self.old.key }
        ensures counts { Counts (R.state self.old.port) (R.state self.new.port) result }
        ensures counted { (R.state self.old.port).faults ≤ (R.state self.new.port).faults }
        ensures calm { IsTrue (R.state self.old.port).calm
            → (has_failed result ≡ false) × IsTrue (R.state self.new.port).calm }

        // What a card that has the host's key does and tells. After a failure it has written, or not. A card that has the
        // key afterwards had it before.
        ensures honest { counter ≢ last_counter → (card : CardState)
            → HasCard (R.state self.old.port) self.old.key card → has_failed result ≡ false
            → (result ≡ card_write card address counter)
            × ((R.state self.new.port).card ≡ Some (written_card card address counter block.now)) }
        ensures was { (card : CardState) → HasCard (R.state self.new.port) self.new.key card
            → HadCard (R.state self.old.port) self.old.key }
        ensures left { counter ≢ last_counter → (card : CardState)
            → HasCard (R.state self.old.port) self.old.key card
            → ((R.state self.new.port).card ≡ Some card)
            ⊎ ((R.state self.new.port).card ≡ Some (written_card card address counter block.now)) }
        ensures written { (card : CardState) → HasCard (R.state self.old.port) self.old.key card
            → IfOk result (λ next. IsWritten card (R.state self.new.port).card address counter block.now next) }
    {
        if counter == u32::MAX {
            return Err(HostFault::Spent);
        }
        let wanted = Wanted {
            kind: BLOCK_WRITTEN,
            nonce: None,
            counter: Some(counter + 1),
            address: Some(address),
        };
        let request = write_request(self.key.bytes(), address, counter, block);
        let answer = self.write(&request, &wanted)?;
        Ok(answer.counter)
    }

    // The two exchanges of a write, and the verdict on what came of the last one.
    fn write(&mut self, request: &[u8; 512], wanted: &Wanted) -> Result<Frame, HostFault>
        ensures exchanged { WriteExchanges (R.state self.old.port) (R.state self.new.port)
            request.now (received (R.state self.new.port) result) }
        ensures judged { result ≡ judged self.old.key wanted.now (received (R.state self.new.port) result) }
        ensures unspent { result ≢ Err Spent }
        ensures key { self.new.key ≡ self.old.key }
    {
        self.port.exchange(request)?;
        self.ask(&result_request(), wanted)
    }

    // One exchange, and the verdict on what came of it.
    fn ask(&mut self, request: &[u8; 512], wanted: &Wanted) -> Result<Frame, HostFault>
        ensures exchanged { Exchanged (R.state self.old.port) (R.state self.new.port)
            request.now (received (R.state self.new.port) result) }
        ensures judged { result ≡ judged self.old.key wanted.now (received (R.state self.new.port) result) }
        ensures unspent { result ≢ Err Spent }
        ensures key { self.new.key ≡ self.old.key }
    {
        let answer = self.port.exchange(request)?;
        judge(self.key.bytes(), wanted, &answer)
    }
}

impl<R: CardRig> Host<R> {
    ghost use Rattle.std.specs.Prelude.{OnOk, OnErr};
    ghost use Rattle.rpmb_card.specs.Arms.{arm_failure, arm_loss, arm_stop};
    ghost use Rattle.rpmb_card.specs.Port.{Rearmed};

    /// Lets this many exchanges pass, and fails all later ones.
    pub fn stop_after(&mut self, calls: u64)
        ensures rearmed { Rearmed (R.state self.old.port) (R.state self.new.port)
            (arm_stop (R.state self.old.port).arms calls) }
        ensures key { self.new.key ≡ self.old.key }
    {
        self.port.stop_after(calls);
    }

    /// Fails that exchange without reaching the card.
    ///
    /// # Errors
    ///
    /// Memory ran out; nothing changed.
    pub fn fail_call(&mut self, call: u64) -> Result<(), NoMemory>
        ensures ok { OnOk result (Rearmed (R.state self.old.port) (R.state self.new.port)
            (arm_failure (R.state self.old.port).arms call)) }
        ensures err { OnErr result (R.state self.new.port ≡ R.state self.old.port) }
        ensures key { self.new.key ≡ self.old.key }
    {
        self.port.fail_call(call)
    }

    /// Lets the card act on that exchange, and loses its answer.
    ///
    /// # Errors
    ///
    /// Memory ran out; nothing changed.
    pub fn lose_call(&mut self, call: u64) -> Result<(), NoMemory>
        ensures ok { OnOk result (Rearmed (R.state self.old.port) (R.state self.new.port)
            (arm_loss (R.state self.old.port).arms call)) }
        ensures err { OnErr result (R.state self.new.port ≡ R.state self.old.port) }
        ensures key { self.new.key ≡ self.old.key }
    {
        self.port.lose_call(call)
    }
}
