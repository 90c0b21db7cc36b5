//! The words that a soak is made from.

ghost use Rattle.std.specs.Prelude.{◌≡◌, ◌+◌, ◌<◌, ◌^◌, ◌++◌, replicate};
ghost use Rattle.std.specs.Int.{w32, to_be_bytes};
ghost use Rattle.seed_words.specs.SoakWords.{next_words, seed_of, words_at};

use rand_chacha::ChaCha20Rng;
use rand_core::SeedableRng;
use rand_core::utils::NextWord;

/// The words that a round takes.
#[derive(Clone, Copy, Debug)]
pub(crate) struct RoundWords {
    /// It says how many bytes the object is made with.
    pub created: u32,
    /// It says where the write begins.
    pub offset: u32,
    /// It says how many bytes are written.
    pub written: u32,
    /// It says with which byte the data begins.
    pub first: u32,
}

/// 28 zero bytes, and then the number, its greatest byte first.
fn seed(number: u32) -> [u8; 32]
    ensures { result ≡ seed_of number }
{
    let [first, second, third, fourth] = number.to_be_bytes();
    [
        0, 0, 0, 0, 0, 0, 0, 0, 0, 0, 0, 0, 0, 0, 0, 0, 0, 0, 0, 0, 0, 0, 0, 0, 0, 0, 0, 0, first,
        second, third, fourth,
    ]
}

/// The generator of an application, from its first word on.
pub(crate) fn app_words(number: u32, app: u32) -> ChaCha20Rng
    ensures { result ≡ words_at number app 0 }
{
    let mut words = ChaCha20Rng::from_seed(seed(number));
    words.set_stream(app as u64);
    words
}

/// The words of the next round.
pub(crate) fn round_words(words: &mut ChaCha20Rng) -> RoundWords
    requires { words.old.word_pos + 4 < 2 ^ 68 }
    ensures words { result ≡ next_words words.old }
    ensures after { words.new ≡ record words.old { word_pos = words.old.word_pos + 4 } }
{
    let created = words.next_word();
    let offset = words.next_word();
    let written = words.next_word();
    let first = words.next_word();
    RoundWords {
        created,
        offset,
        written,
        first,
    }
}
