ghost use Rattle.std.specs.Prelude.{◌≡◌, ℕ, ◌<◌, Some, slice_get};
ghost use Rattle.twister.specs.Sequence.{word_of};
ghost use Rattle.twister.specs.Place.{start_of, words_from};

/// The law of repeated draws: of the words that are drawn one after the other from the beginning of
/// a seed's sequence, the `k`-th, from 0, depends on the seed and `k` alone. The call does nothing.
#[tactic(auto, using(crate::proofs::WordsInOrder::drawn_in_order))]
pub fn words_in_order()
    ensures { (seed count k : ℕ) → k < count → slice_get (words_from count (start_of seed)) k ≡ Some
        (word_of seed k) }
{}
