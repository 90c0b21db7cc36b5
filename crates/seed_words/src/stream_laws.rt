//! What holds of the words of a seed. No code.

ghost use Rattle.std.specs.Prelude.{◌≡◌, ℕ, List, ◌<◌, ◌^◌};
ghost use Rattle.seed_words.specs.Words.{source_of};

/// Two words of one seed that come from the same block's state and the same place in that block are of the same stream and
/// place. So generators of different streams never draw from one block, and a generator comes back to a place only after
/// 2^66 draws. Nothing is claimed of the words' values.
pub fn words_are_apart()
    ensures { (seed : List ℕ) (stream other place there : ℕ) → stream < 2 ^ 64 → other < 2 ^ 64
        → place < 2 ^ 68 → there < 2 ^ 68 → source_of seed stream place ≡ source_of seed other there
        → (stream ≡ other) × (place ≡ there) }
{}
