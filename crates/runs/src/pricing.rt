// The price of a program under a cost model.
ghost use Rattle.std.specs.Prelude.{◌≡◌, ◌≤◌, length, Ok};
ghost use Rattle.ir.specs.Instructions.{plain};
ghost use Rattle.program.specs.Programs.{at, size, WellFormed};
ghost use Rattle.runs.specs.Prices.{stamp_of, price as model_price};
ghost use Rattle.runs.specs.Form.{FormLaw};
ghost use Rattle.runs.specs.Answers.{price_answer, scratch_fault, counted, either, zeros};
ghost use Rattle.runs.specs.Scratch.{word_at, price_words, stamps_left};

use crate::cost::CostModel;
use crate::fault::RunFault;
use crate::form::check_form;
use crate::scratch::{Scratch, check_scratch, word_of};
use crate::walk::Walk;
use ir::instruction::Record;
use program::store::Store;

// The stamp of an instruction whose operands' stamps lie in the words. One after another: by `map` a price took up to twice
// the time.
fn stamp_of<M: CostModel>(words: &[u32], what: Record) -> u32
    ensures { result ≡ stamp_of M.costing (plain what) (word_at words.now) }
{
    let [a, b, c] = what.operands();
    let a = word_of(words, a);
    let b = word_of(words, b);
    let c = word_of(words, c);
    M::stamp(what.op, what.literal, a, b, c)
}

// The price of the program over words that hold anything.
pub(crate) fn walk_price<S: Store, M: CostModel>(store: &S, words: &mut [u32]) -> u32
    requires { size (S.program store.now) ≤ length words.old }
    ensures answer { result ≡ price_words M.costing (at (S.program store.now)) 0 words.old (S.program store.now).order }
    ensures words { words.new ≡ stamps_left M.costing (at (S.program store.now)) words.old (S.program store.now).order }
{
    let mut total = 0;
    for (n, what) in Walk::new(store) {
        let stamp = stamp_of::<M>(words, what);
        words[n as usize] = stamp;
        total = M::total(total, stamp);
    }
    total
}

// The price again, of a program that is known to be well formed: it is not tested for that. The words may hold anything, and hold
// the stamps afterwards. It is refused if there are fewer words than numbers.
pub fn price_again<S: Store, M: CostModel>(store: &S, words: &mut [u32]) -> Result<u32, RunFault>
    ensures answer { result ≡ counted (scratch_fault (S.program store.now) (length words.old)) (price_words M.costing (at (S.program store.now)) 0 words.old (S.program store.now).order) }
    ensures words { words.new ≡ either (scratch_fault (S.program store.now) (length words.old)) (stamps_left M.costing (at (S.program store.now)) words.old (S.program store.now).order) words.old }
    ensures formed { WellFormed (S.program store.now) → size (S.program store.now) ≤ length words.old → result ≡ Ok (model_price M.costing (S.program store.now)) }
{
    check_scratch(store, words.len())?;
    Ok(walk_price::<S, M>(store, words))
}

// The price of the program in a store. It is refused if there are fewer scratch words than numbers, or if the program is
// not well formed.
pub fn price<S: Store, M: CostModel>(store: &S, scratch: &mut [u32]) -> Result<u32, RunFault>
    ensures answer { result ≡ price_answer M.costing (S.program store.now) (length scratch.old) }
    ensures scratch { scratch.new ≡ zeros (length scratch.old) }
    ensures form { FormLaw (S.program store.now) }
{
    let guard = Scratch(scratch);
    check_form(store, guard.0)?;
    Ok(walk_price::<S, M>(store, guard.0))
}
