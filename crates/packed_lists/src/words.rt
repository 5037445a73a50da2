ghost use Rattle.std.specs.Prelude.{◌≡◌, ◌↔◌, IsTrue, length, replicate, IfOk};

use base::NoMemory;
use std::alloc::Global;

/// So many words of zeros. Out of memory is its only error.
pub(crate) fn zero_words(alloc: Global, count: usize) -> Result<Vec<u64>, NoMemory>
    ensures { IfOk result (λ words. words.items ≡ replicate count 0) }
{
    let mut words = Vec::new(alloc);
    words.resize(count, 0)?;
    Ok(words)
}

/// Whether both have the same words. It takes as long whether they have or not.
pub(crate) fn same_words(words: &[u64], others: &[u64]) -> bool
    ensures { IsTrue result ↔ (words.now ≡ others.now) }
{
    if words.len() != others.len() {
        return false;
    }
    // There is no way out early, so that several words are compared at once.
    let mut same = true;
    for i in 0..words.len() {
        same = same & (words[i] == others[i]);
    }
    same
}

/// Takes the words of another list of the same length.
pub(crate) fn copy_words(words: &mut [u64], others: &[u64])
    requires { length words.old ≡ length others.now }
    ensures { words.new ≡ others.now }
{
    words.copy_from_slice(others);
}
