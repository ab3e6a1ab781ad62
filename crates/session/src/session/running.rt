// The price and the runs of the session's program.
ghost use Rattle.std.specs.Prelude.{◌≡◌, length};
ghost use Rattle.runs.specs.Runs.{RunLaw};
ghost use Rattle.runs.specs.Form.{FormLaw};
ghost use Rattle.runs.specs.Answers.{price_answer, run_answer, after_run, zeros};
ghost use Rattle.session.specs.Meaning.{Read};

use super::Session;
use program::store::Store;
use runs::cost::CostModel;
use runs::fault::RunFault;

impl<S: Store, M: CostModel> Session<S, M> {
    // The price under the session's cost model.
    pub fn price(&mut self, scratch: &mut [u32]) -> Result<u32, RunFault>
        ensures answer { Read S.program (λ p. price_answer M.costing p (length scratch.old)) self.old self.new result }
        ensures scratch { scratch.new ≡ zeros (length scratch.old) }
        ensures form { FormLaw (S.program self.old.store) }
    {
        runs::pricing::price::<S, M>(&self.store, scratch)
    }

    // A run on sixteen input words.
    pub fn run(
        &mut self,
        inputs: &[u32],
        scratch: &mut [u32],
        output: &mut [u32],
    ) -> Result<u32, RunFault>
        ensures answer { Read S.program (λ p. run_answer p (length scratch.old) inputs.now (length output.old)) self.old self.new result }
        ensures output { output.new ≡ after_run (S.program self.old.store) (length scratch.old) inputs.now output.old }
        ensures scratch { scratch.new ≡ zeros (length scratch.old) }
        ensures meaning { RunLaw (S.program self.old.store) inputs.now }
    {
        runs::running::run(&self.store, inputs, scratch, output)
    }
}
