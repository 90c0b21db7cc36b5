// The simulated card.

ghost use Rattle.std.specs.Prelude.{◌≡◌, ◌≤◌, ◌<◌};
ghost use Rattle.rpmb_frame.specs.Layout.{frame_of};

use crate::frames::empty_frame;
use crate::protocol::{
    ADDRESS_FAILURE, AUTHENTICATION_FAILURE, BLOCK_READ, BLOCK_WRITTEN, COUNTER_EXPIRED,
    COUNTER_FAILURE, COUNTER_READ, DONE, GENERAL_FAILURE, KEY_NOT_PROGRAMMED, KEY_PROGRAMMED,
    PROGRAM_KEY, READ_BLOCK, READ_COUNTER, READ_RESULT, WRITE_BLOCK, WRITE_FAILURE,
};
use rpmb_frame::{Frame, seal_frame, verify};
use std::marker::Model;

/// How the last programming of a key, or the last write, ended.
#[derive(Clone, Copy, Debug, PartialEq, Eq)]
pub struct Register {
    /// The response to `READ_RESULT`: `KEY_PROGRAMMED` or `BLOCK_WRITTEN`.
    pub kind: u16,
    /// The result, without the bit `COUNTER_EXPIRED`.
    pub result: u16,
    /// The write's address.
    pub address: u16,
}

/// A simulated card: a key that is programmed once, a write counter, 256 blocks of 256 bytes, and a result register.
///
/// Contracts see what it holds.
#[derive(Drop)]
pub struct SimCard {
    pub(crate) key: Option<[u8; 32]>,
    counter: u32,
    blocks: [[u8; 256]; 256],
    register: Option<Register>,
}

impl Model for SimCard {
    ghost use Rattle.rpmb_card.specs.Card.{CardState, IsCard};

    ghost Value = { CardState };

    ghost view = { λ c. record {
      key = c.key;
      counter = c.counter;
      blocks = c.blocks;
      register = c.register;
    } };

    ghost invariant = { λ c. IsCard (record {
      key = c.key;
      counter = c.counter;
      blocks = c.blocks;
      register = c.register;
    }) };
}

impl SimCard {
    ghost use Rattle.std.specs.Prelude.{length, max, slice_set};
    ghost use Rattle.rpmb_card.specs.Card.{IsCard, blank, keyed, zero_blocks, card_answer, card_after, answer_fields, answer_bytes, counter_answer, block_answer, register_answer, read_result, write_result, does_write, given_result, is_authentic, programmed, written, carries_mac};

    /// A card that was never used: it has no key, its counter is 0, its blocks are zero, its register is empty.
    pub fn blank() -> SimCard
        ensures blank { result ≡ blank }
        ensures sound { IsCard result }
    {
        SimCard {
            key: None,
            counter: 0,
            blocks: SimCard::zero_blocks(),
            register: None,
        }
    }

    /// A card that has this key and was never written: as `blank`, but for the key.
    pub fn with_key(key: &[u8; 32]) -> SimCard
        ensures keyed { result ≡ keyed key.now }
        ensures sound { IsCard result }
    {
        SimCard {
            key: Some(*key),
            counter: 0,
            blocks: SimCard::zero_blocks(),
            register: None,
        }
    }

    /// Puts a block where an earlier write put it. The counter is then at least `counter`.
    pub fn restore(&mut self, address: u8, block: &[u8; 256], counter: u32)
        ensures restored { self.new ≡ record self.old {
          blocks = slice_set self.old.blocks address block.now;
          counter = max self.old.counter counter;
        } }
        ensures stays_sound { IsCard self.new }
    {
        self.blocks[address as usize] = *block;
        self.counter = self.counter.max(counter);
    }

    /// Whether the card will take this frame as a write that is done: then its block changes, and the
    /// counter rises. Any other frame changes at most the result register, or the key of a card that
    /// has none.
    pub fn does_write(&self, frame: &[u8; 512]) -> bool
        ensures { result ≡ does_write self.now frame.now }
    {
        let request = Frame::parse(frame);
        request.kind == WRITE_BLOCK && self.write_result(frame, &request) == DONE
    }

    /// Takes one frame and gives the answer, as the card's table says.
    pub fn answer(&mut self, frame: &[u8; 512]) -> [u8; 512]
        ensures answer { result ≡ card_answer self.old frame.now }
        ensures after { self.new ≡ card_after self.old frame.now }
        ensures sound { IsCard self.old }
        ensures stays_sound { IsCard self.new }
    {
        let _ = &self.key;
        let request = Frame::parse(frame);
        let fields = self.answer_fields(&request);
        let answer = self.authenticated(&fields);
        match request.kind {
            PROGRAM_KEY => self.program(&request.key_or_mac),
            WRITE_BLOCK => self.write(frame, &request),
            _ => {}
        }
        answer
    }

    /// Moves the write counter on, as many writes would.
    pub fn wear(&mut self, counter: u32)
        requires { self.old.counter ≤ counter }
        ensures worn { self.new ≡ record self.old { counter = counter } }
        ensures stays_sound { IsCard self.new }
    {
        self.counter = counter;
    }

    // The answer before its MAC.
    fn answer_fields(&self, request: &Frame) -> Frame
        ensures { result ≡ answer_fields self.now request.now }
    {
        match request.kind {
            PROGRAM_KEY => empty_frame(),
            READ_COUNTER => self.counter_answer(request),
            WRITE_BLOCK => empty_frame(),
            READ_BLOCK => self.block_answer(request),
            READ_RESULT => self.register_answer(),
            _ => Frame {
                result: self.given(GENERAL_FAILURE),
                ..empty_frame()
            },
        }
    }

    fn counter_answer(&self, request: &Frame) -> Frame
        ensures { result ≡ counter_answer self.now request.now }
    {
        let result = if self.key.is_none() {
            KEY_NOT_PROGRAMMED
        } else {
            DONE
        };
        Frame {
            nonce: request.nonce,
            counter: self.counter,
            result: self.given(result),
            kind: COUNTER_READ,
            ..empty_frame()
        }
    }

    fn block_answer(&self, request: &Frame) -> Frame
        ensures { result ≡ block_answer self.now request.now }
    {
        let result = self.read_result(request);
        let empty = empty_frame();
        let block = if result == DONE {
            self.blocks[request.address as usize]
        } else {
            empty.block
        };
        Frame {
            block,
            nonce: request.nonce,
            address: request.address,
            count: 1,
            result: self.given(result),
            kind: BLOCK_READ,
            ..empty
        }
    }

    fn read_result(&self, request: &Frame) -> u16
        ensures value { result ≡ read_result self.now request.now }
        ensures within { result ≡ 0 → request.now.address < 256 }
    {
        if self.key.is_none() {
            KEY_NOT_PROGRAMMED
        } else if request.address > 255 {
            ADDRESS_FAILURE
        } else {
            DONE
        }
    }

    fn register_answer(&self) -> Frame
        ensures { result ≡ register_answer self.now.counter self.now.register }
    {
        match self.register {
            None => Frame {
                result: self.given(GENERAL_FAILURE),
                ..empty_frame()
            },
            Some(register) => Frame {
                counter: if register.kind == BLOCK_WRITTEN {
                    self.counter
                } else {
                    0
                },
                address: register.address,
                result: self.given(register.result),
                kind: register.kind,
                ..empty_frame()
            },
        }
    }

    // A result as it is given.
    fn given(&self, outcome: u16) -> u16
        ensures { result ≡ given_result self.now.counter outcome }
    {
        if self.counter == u32::MAX {
            outcome | COUNTER_EXPIRED
        } else {
            outcome
        }
    }

    // The answer's bytes, with the MAC where its kind has one.
    fn authenticated(&self, answer: &Frame) -> [u8; 512]
        ensures { result ≡ answer_bytes self.now.key answer.now }
    {
        let mut bytes = answer.write();
        if let Some(key) = &self.key {
            if SimCard::carries_mac(answer.kind) {
                seal_frame(&mut bytes, key);
            }
        }
        bytes
    }

    fn program(&mut self, key: &[u8; 32])
        ensures programmed { self.new ≡ programmed self.old key.now }
        ensures sound { IsCard self.new }
    {
        let result = if self.key.is_none() {
            self.key = Some(*key);
            DONE
        } else {
            GENERAL_FAILURE
        };
        self.register = Some(Register {
            kind: KEY_PROGRAMMED,
            result,
            address: 0,
        });
    }

    fn write(&mut self, frame: &[u8; 512], request: &Frame)
        requires { request.now ≡ frame_of frame.now }
        ensures written { self.new ≡ written self.old request.now (write_result self.old frame.now) }
        ensures sound { IsCard self.new }
    {
        let result = self.write_result(frame, request);
        if result == DONE {
            self.blocks[request.address as usize] = request.block;
            self.counter += 1;
        }
        self.register = Some(Register {
            kind: BLOCK_WRITTEN,
            result,
            address: request.address,
        });
    }

    // How a write ends.
    fn write_result(&self, frame: &[u8; 512], request: &Frame) -> u16
        requires { request.now ≡ frame_of frame.now }
        ensures value { result ≡ write_result self.now frame.now }
        ensures within { result ≡ 0 → request.now.address < 256 }
        ensures counts { result ≡ 0 → self.now.counter < 4294967295 }
    {
        if self.key.is_none() {
            KEY_NOT_PROGRAMMED
        } else if self.counter == u32::MAX {
            WRITE_FAILURE
        } else if request.count != 1 {
            GENERAL_FAILURE
        } else if request.address > 255 {
            ADDRESS_FAILURE
        } else if !self.is_authentic(frame) {
            AUTHENTICATION_FAILURE
        } else if request.counter != self.counter {
            COUNTER_FAILURE
        } else {
            DONE
        }
    }

    // The frame carries its MAC under the card's key.
    fn is_authentic(&self, frame: &[u8; 512]) -> bool
        ensures { result ≡ is_authentic self.now.key frame.now }
    {
        match &self.key {
            None => false,
            Some(key) => verify(frame, key).is_ok(),
        }
    }

    // An answer of this kind has a MAC.
    fn carries_mac(kind: u16) -> bool
        ensures { result ≡ carries_mac kind }
    {
        kind == COUNTER_READ || kind == BLOCK_WRITTEN || kind == BLOCK_READ
    }

    #[tactic(auto, unfolding(crate::specs::Card::zero_blocks))]
    fn zero_blocks() -> [[u8; 256]; 256]
        ensures { result ≡ zero_blocks }
    {
        [[0; 256]; 256]
    }
}
