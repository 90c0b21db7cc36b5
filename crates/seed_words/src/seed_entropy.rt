//! The generator of a seed.

ghost use Rattle.std.specs.Prelude.{◌≡◌, ◌++◌, slice_index};
ghost use Rattle.std.specs.Int.{w32, to_le_bytes};

use rand_chacha::ChaCha20Rng;
use rand_core::SeedableRng;
use rand_core::utils::NextWord;
use std::marker::Model;
use tee_ports::{Entropy, Failed};

/// A generator whose bytes follow from its seed, its stream's number and how much was drawn before. It never fails.
///
/// A contract sees the seed, the number of the stream, and the place in it of the next word.
#[derive(Drop)]
pub struct SeedEntropy {
    seed: [u8; 32],
    words: ChaCha20Rng,
}

impl Model for SeedEntropy {
    ghost use Rattle.std.specs.Prelude.{◌≡◌, ◌<◌, ◌%◌, ◌^◌};
    ghost use Rattle.rand_chacha.specs.ChaCha.{key_of};
    ghost use Rattle.seed_words.specs.Words.{SeedState};

    ghost Value = { SeedState };

    ghost view = { λ e. record { seed = e.seed; stream = e.words.stream; place = e.words.word_pos } };

    // a draw's four words lie in one block
    ghost invariant = { λ e. (e.words.key ≡ key_of e.seed) × (e.words.word_pos % 4 ≡ 0) × (e.words.word_pos < 2 ^ 68) };
}

impl SeedEntropy {
    ghost use Rattle.std.specs.Prelude.{◌≡◌, [], ◌∷◌};
    ghost use Rattle.seed_words.specs.Words.{word_of, after_draw};

    /// The generator that draws from stream 0 of this seed, from its first word on.
    pub fn from_seed(seed: &[u8; 32]) -> SeedEntropy
        ensures { result ≡ record { seed = seed.now; stream = 0; place = 0 } }
    {
        SeedEntropy::of_stream(*seed, 0)
    }

    // The generator that draws from this stream of the seed, from its first word on.
    fn of_stream(seed: [u8; 32], stream: u64) -> SeedEntropy
        ensures { result ≡ record { seed = seed; stream = stream; place = 0 } }
    {
        let mut words = ChaCha20Rng::from_seed(seed);
        words.set_stream(stream);
        SeedEntropy { seed, words }
    }

    // The next four words of the stream.
    fn next_words(&mut self) -> [u32; 4]
        ensures words { result ≡ word_of self.old 0 ∷ word_of self.old 1 ∷ word_of self.old 2 ∷ word_of self.old 3 ∷ [] }
        ensures after { self.new ≡ after_draw self.old }
    {
        let first = self.words.next_word();
        let second = self.words.next_word();
        let third = self.words.next_word();
        let fourth = self.words.next_word();
        [first, second, third, fourth]
    }
}

impl Entropy for SeedEntropy {
    ghost use Rattle.std.specs.Prelude.{◌≡◌, ◌<◌, ◌+◌, ◌^◌, ⊤, IsOk};
    ghost use Rattle.seed_words.specs.Words.{drawn_of, after_draw};

    ghost is_reliable = { λ e. ⊤ };

    ghost faults = { λ e. 0 };

    fn draw(&mut self, into: &mut [u8; 16]) -> Result<(), Failed>
        ensures passes { IsOk result }
        ensures drawn { into.new ≡ drawn_of self.old }
        ensures after { self.new ≡ after_draw self.old }
    {
        *into = bytes_of(self.next_words());
        Ok(())
    }

    /// The generator of the stream behind this number, from its first word on, under the same seed.
    fn stream(&self, number: u64) -> SeedEntropy
        requires { number < 2 ^ 32 }
        ensures { result ≡ record { seed = self.now.seed; stream = number + 1; place = 0 } }
    {
        SeedEntropy::of_stream(self.seed, number + 1)
    }
}

// These words one after the other, each with its least byte first.
fn bytes_of(words: [u32; 4]) -> [u8; 16]
    ensures { result ≡ to_le_bytes w32 (slice_index words 0) ++ to_le_bytes w32 (slice_index words 1)
        ++ to_le_bytes w32 (slice_index words 2) ++ to_le_bytes w32 (slice_index words 3) }
{
    let mut bytes = [0; 16];
    bytes[..4].copy_from_slice(&words[0].to_le_bytes());
    bytes[4..8].copy_from_slice(&words[1].to_le_bytes());
    bytes[8..12].copy_from_slice(&words[2].to_le_bytes());
    bytes[12..].copy_from_slice(&words[3].to_le_bytes());
    bytes
}
