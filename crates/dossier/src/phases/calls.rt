// The calls that a dossier takes.
ghost use Rattle.std.specs.Prelude.{[]};
ghost use Rattle.runs.specs.Law.{Law};
ghost use Rattle.runs.specs.Runs.{Run, Step, add as add_event, settle as settle_event, reopen as reopen_event, write as write_event, row as row_event, tally as tally_event, sheet as sheet_event};
ghost use Rattle.dossier.specs.Refusals.{answered};
ghost use Rattle.dossier.specs.Phases.{open_dossier, settled_dossier};

use crate::adding::add;
use crate::phases::{Open, Settled};
use crate::refusal::Refusal;
use crate::reporting::{row, tally};
use crate::sheeting::sheet;
use crate::writing::write;
use judge::judge::Judge;
use runs::report::{Row, Tally};
use runs::{law_of_runs, runs_begin};
use std::alloc::Global;

impl Open {
    // A new dossier: no claim, no digest. Every run begins here, and the law holds of every run.
    pub fn new() -> Open
        ensures begins { Run [] (open_dossier result) }
        ensures law { Law }
    {
        let _law = law_of_runs();
        let _begun = runs_begin();
        Open { held: None }
    }

    // The claims of the file are joined to those held. A refusal changes nothing.
    pub fn add(&mut self, heap: Global, file: &[u8]) -> Result<(), Refusal>
        ensures { Step (open_dossier self.old) (add_event file.now (answered result)) (open_dossier self.new) }
    {
        add(&mut self.held, heap, file)
    }

    // From here on the dossier is written and reported.
    pub fn settle(self) -> Settled
        ensures { Step (open_dossier self) settle_event (settled_dossier result) }
    {
        Settled { held: self.held }
    }
}

impl Settled {
    // From here on it takes files again.
    pub fn reopen(self) -> Open
        ensures { Step (settled_dossier self) reopen_event (open_dossier result) }
    {
        Open { held: self.held }
    }

    // The canonical file of what is held, at the front of the out area; its length is the answer.
    pub fn write(&self, out: &mut [u8]) -> Result<usize, Refusal>
        ensures { Step (settled_dossier self.now) (write_event out.old (answered result) out.new) (settled_dossier self.now) }
    {
        write(&self.held, out)
    }

    // The k-th row in written order, from 0.
    pub fn row<J: Judge>(&self, judge: &J, k: usize, work: &mut [u8]) -> Result<Row, Refusal>
        ensures { Step (settled_dossier self.now) (row_event (J.meaning judge.now) k work.old (answered result) work.new) (settled_dossier self.now) }
    {
        row(&self.held, judge, k, work)
    }

    // How many claims have each verdict, and the earliest confirmed time.
    pub fn tally<J: Judge>(&self, judge: &J, work: &mut [u8]) -> Result<Tally, Refusal>
        ensures { Step (settled_dossier self.now) (tally_event (J.meaning judge.now) work.old (answered result) work.new) (settled_dossier self.now) }
    {
        tally(&self.held, judge, work)
    }

    // The sheet of all rows and their counts, at the front of the out area; its length is the answer.
    pub fn sheet<J: Judge>(
        &self,
        judge: &J,
        out: &mut [u8],
        work: &mut [u8],
    ) -> Result<usize, Refusal>
        ensures { Step (settled_dossier self.now) (sheet_event (J.meaning judge.now) out.old work.old (answered result) out.new work.new) (settled_dossier self.now) }
    {
        sheet(&self.held, judge, out, work)
    }
}
