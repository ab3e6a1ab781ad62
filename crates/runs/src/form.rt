// The test for a well-formed program, by marks in scratch words.
ghost use Rattle.std.specs.Prelude.{◌≡◌, ◌≤◌, true, length, is_ok};
ghost use Rattle.ir.specs.Instructions.{plain};
ghost use Rattle.program.specs.Programs.{at, size};
ghost use Rattle.runs.specs.Answers.{price_fault, ill_formed, checked, zeros};
ghost use Rattle.runs.specs.Scratch.{mark_in, reads_marked, broken_words};

use crate::fault::RunFault;
use crate::scratch::{check_scratch, clear, word_of};
use crate::walk::Walk;
use ir::instruction::Record;
use program::store::Store;

// Whether an operand has its mark; an absent one needs none.
fn is_marked(words: &[u32], x: Option<u32>) -> bool
    ensures { result ≡ mark_in words.now x }
{
    x.is_none() || word_of(words, x) != 0
}

// Whether each operand of the record has its mark. One after another: by `all` the check found no proof.
fn reads_marked(words: &[u32], what: Record) -> bool
    ensures { result ≡ reads_marked words.now (plain what) }
{
    let [a, b, c] = what.operands();
    is_marked(words, a) && is_marked(words, b) && is_marked(words, c)
}

// No placed instruction reads one without a mark; each gets its mark, up to the first that does.
fn check_reads<S: Store>(store: &S, words: &mut [u32]) -> Result<(), RunFault>
    requires { size (S.program store.now) ≤ length words.old }
    ensures { result ≡ checked (ill_formed (broken_words (at (S.program store.now)) words.old (S.program store.now).order)) }
{
    for (n, what) in Walk::new(store) {
        if !reads_marked(words, what) {
            return Err(RunFault::IllFormed(n));
        }
        words[n as usize] = 1;
    }
    Ok(())
}

// The words are as many as the numbers, and the program is well formed; the words are then zero.
pub(crate) fn check_form<S: Store>(store: &S, words: &mut [u32]) -> Result<(), RunFault>
    ensures answer { result ≡ checked (price_fault (S.program store.now) (length words.old)) }
    ensures cleared { is_ok result ≡ true → words.new ≡ zeros (length words.old) }
{
    check_scratch(store, words.len())?;
    clear(words);
    let answer = check_reads(store, words);
    clear(words);
    answer
}
