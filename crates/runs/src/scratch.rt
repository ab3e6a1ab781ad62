// Scratch: words lent for one call, which come back zero on every way out of it.
ghost use Rattle.std.specs.Prelude.{◌≡◌, length};
ghost use Rattle.runs.specs.Answers.{zeros, checked, scratch_fault};
ghost use Rattle.runs.specs.Scratch.{word_in};

use crate::fault::RunFault;
use program::store::Store;

// Writes 0 into each word.
pub fn clear(words: &mut [u32])
    ensures { words.new ≡ zeros (length words.old) }
{
    words.fill(0);
}

// The guard of the lent words: they are zero once it is let go.
pub struct Scratch<'a>(pub &'a mut [u32]);

impl Drop for Scratch<'_> {
    fn drop(self)
        ensures { self.exit.0.now ≡ zeros (length self.entry.0.now) }
    {
        clear(self.0);
        let Scratch(_) = self;
    }
}

// There is a word for each number.
pub(crate) fn check_scratch<S: Store>(store: &S, words: usize) -> Result<(), RunFault>
    ensures { result ≡ checked (scratch_fault (S.program store.now) words) }
{
    let size = store.size();
    if words < size as usize {
        return Err(RunFault::ScratchTooShort(size));
    }
    Ok(())
}

// What is read of an operand: its word, or 0 where the operand is absent or has no word.
pub fn word_of(words: &[u32], x: Option<u32>) -> u32
    ensures { result ≡ word_in words.now x }
{
    x.and_then(|n| words.get(n as usize).copied()).unwrap_or(0)
}
