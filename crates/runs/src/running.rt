// A run of a program: sixteen input words in, channels and values out.
ghost use Rattle.std.specs.Prelude.{◌≡◌, ◌+◌, ◌*◌, ◌<◌, ◌≤◌, true, length, is_ok};
ghost use Rattle.ir.specs.Instructions.{plain};
ghost use Rattle.program.specs.Programs.{at, size};
ghost use Rattle.runs.specs.Runs.{out?, value, sent, outs, RunLaw};
ghost use Rattle.runs.specs.Form.{FormLaw};
ghost use Rattle.runs.specs.Answers.{run_answer, after_run, zeros};
ghost use Rattle.runs.specs.Scratch.{word_at, run_words, put_pairs};

use crate::fault::RunFault;
use crate::form::check_form;
use crate::scratch::{Scratch, word_of};
use crate::walk::Walk;
use ir::instruction::Record;
use ir::operation::Op;
use program::store::Store;

// Whether the instruction sends its value to a channel.
pub fn is_out(what: Record) -> bool
    ensures { result ≡ out? what.op }
{
    what.op == Op::Out
}

// How many outs are placed.
fn count_outs<S: Store>(store: &S) -> u32
    ensures { result ≡ outs (S.program store.now) }
{
    Walk::new(store).filter(|(_, what)| is_out(*what)).count() as u32
}

// The value of an instruction whose operands' values lie in the words.
fn value_of(words: &[u32], inputs: &[u32], what: Record) -> u32
    ensures { result ≡ value (plain what) (word_at words.now) inputs.now }
{
    let [x, y, z] = what.operands().map(|x| word_of(words, x));
    what.value(inputs, x, y, z)
}

// Writes channel and value behind so many pairs if the instruction is an out, and answers how many pairs there are then.
// The place is a count of pairs, and no slice of what is left of the output: the contracts speak of the output as one list.
fn send(what: Record, value: u32, output: &mut [u32], pairs: usize) -> usize
    requires { 2 * (pairs + length (sent (plain what) value)) ≤ length output.old }
    ensures answer { result ≡ pairs + length (sent (plain what) value) }
    ensures after { output.new ≡ put_pairs output.old pairs (sent (plain what) value) }
{
    if !is_out(what) {
        return pairs;
    }
    output[2 * pairs] = what.literal;
    output[2 * pairs + 1] = value;
    pairs + 1
}

// The run over words that hold anything; the output memory has two words for each out.
fn walk_run<S: Store>(store: &S, inputs: &[u32], words: &mut [u32], output: &mut [u32])
    requires words { size (S.program store.now) ≤ length words.old }
    requires output { 2 * length (run_words (at (S.program store.now)) inputs.now words.old (S.program store.now).order) ≤ length output.old }
    ensures { output.new ≡ put_pairs output.old 0 (run_words (at (S.program store.now)) inputs.now words.old (S.program store.now).order) }
{
    let mut pairs = 0;
    for (n, what) in Walk::new(store) {
        let value = value_of(words, inputs, what);
        words[n as usize] = value;
        pairs = send(what, value, output, pairs);
    }
}

// What has to hold before a run, by words that hold anything: so many outs there are, or why there is no run.
fn check_run<S: Store>(
    store: &S,
    inputs: &[u32],
    words: &mut [u32],
    room: usize,
) -> Result<u32, RunFault>
    ensures answer { result ≡ run_answer (S.program store.now) (length words.old) inputs.now room }
    ensures cleared { is_ok result ≡ true → words.new ≡ zeros (length words.old) }
{
    check_form(store, words)?;
    if inputs.len() != 16 {
        return Err(RunFault::InputCount(inputs.len()));
    }
    let outs = count_outs(store);
    if room < 2 * outs as usize {
        return Err(RunFault::OutputTooShort(2 * outs));
    }
    Ok(outs)
}

// Runs the program in a store. It is refused for want of scratch words, if the program is not well formed, if there are
// not sixteen inputs, or for want of output memory; then the output memory is as it was.
pub fn run<S: Store>(
    store: &S,
    inputs: &[u32],
    scratch: &mut [u32],
    output: &mut [u32],
) -> Result<u32, RunFault>
    ensures answer { result ≡ run_answer (S.program store.now) (length scratch.old) inputs.now (length output.old) }
    ensures output { output.new ≡ after_run (S.program store.now) (length scratch.old) inputs.now output.old }
    ensures scratch { scratch.new ≡ zeros (length scratch.old) }
    ensures form { FormLaw (S.program store.now) }
    ensures meaning { RunLaw (S.program store.now) inputs.now }
{
    let guard = Scratch(scratch);
    let outs = check_run(store, inputs, guard.0, output.len())?;
    walk_run(store, inputs, guard.0, output);
    Ok(outs)
}
