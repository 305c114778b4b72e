// What the calls of a dossier answer and leave, the runs of such calls, and the law over every run.
#![tactic(auto)]

ghost use Rattle.std.specs.Prelude.{[]};
ghost use Rattle.runs.specs.Contents.{opened, blank};
ghost use Rattle.runs.specs.Runs.{Run};
ghost use Rattle.runs.specs.Law.{Law, Carried};
ghost use Rattle.runs.specs.Examples.{FirstSheet};

pub mod report;

// Law: whatever calls a dossier is made to take from its beginning on, it holds exactly the claims of the files that were
// granted; written files are canonical, and equal exactly where digest and claims agree; rows, tallies and sheets are true
// to the judge that each was asked with.
pub fn law_of_runs() -> u8
    ensures { Law }
{
    0
}

// Law: the test that a dossier's types carry says exactly what a run keeps, and a work area is left cleared.
pub fn law_of_types_and_areas() -> u8
    ensures { Carried }
{
    0
}

// Law: with no call made, a run stands at a blank open dossier.
pub fn runs_begin() -> u8
    ensures { Run [] (opened blank) }
{
    0
}

// Law: a sheet to try.
pub fn sheet_to_try() -> u8
    ensures { FirstSheet }
{
    0
}
