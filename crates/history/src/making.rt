// Calls made one after another on a new dossier, each recorded.
ghost use Rattle.std.specs.Prelude.{◌≡◌, IfOk};
ghost use Rattle.dossier.specs.Phases.{open_dossier, settled_dossier};
ghost use Rattle.history.specs.Scripts.{phase_dossier, zeros as zero_bytes, FileRecorded, SheetRecorded, One, Recorded};

use crate::call::Call;
use crate::entry::Entry;
use crate::phase::Phase;
use dossier::phases::{Open, Settled};
use dossier::refusal::Refusal;
use judge::judge::Judge;
use std::alloc::{AllocError, Global};

// An area to lend.
fn zeros(heap: Global, n: usize) -> Result<Vec<u8>, AllocError>
    ensures { IfOk result (λ v. v.items ≡ zero_bytes n) }
{
    vec![in heap; 0u8; n]
}

fn written(
    heap: Global,
    dossier: &Settled,
    room: usize,
) -> Result<Result<Vec<u8>, Refusal>, AllocError>
    ensures { IfOk result (λ w. FileRecorded (settled_dossier dossier.now) room w) }
{
    let mut out = zeros(heap, room)?;
    match dossier.write(out.as_mut_slice()) {
        Ok(n) => {
            out.truncate(n);
            Ok(Ok(out))
        }
        Err(refusal) => Ok(Err(refusal)),
    }
}

// Kept: ends as the file above; a function for both would be handed the area and the answer and give back either, and be no plainer.
fn listed<J: Judge>(
    heap: Global,
    dossier: &Settled,
    judge: &J,
    room: usize,
    work: usize,
) -> Result<Result<Vec<u8>, Refusal>, AllocError>
    ensures { IfOk result (λ w. SheetRecorded (settled_dossier dossier.now) (J.meaning judge.now) room work w) }
{
    let mut out = zeros(heap, room)?;
    let mut area = zeros(heap, work)?;
    match dossier.sheet(judge, out.as_mut_slice(), area.as_mut_slice()) {
        Ok(n) => {
            out.truncate(n);
            Ok(Ok(out))
        }
        Err(refusal) => Ok(Err(refusal)),
    }
}

// An open dossier takes files, and may be settled.
fn on_open<J: Judge>(heap: Global, mut dossier: Open, call: &Call<'_, J>) -> (Phase, Entry)
    ensures { One J.meaning (open_dossier dossier) call.now result.1 (phase_dossier result.0) }
{
    match call {
        Call::Add(file) => {
            let answer = dossier.add(heap, file);
            (Phase::Open(dossier), Entry::Added(answer))
        }
        Call::Settle => (Phase::Settled(dossier.settle()), Entry::Settled),
        _ => (Phase::Open(dossier), Entry::NotTaken),
    }
}

// A settled dossier is written and reported, and may be reopened.
fn on_settled<J: Judge>(
    heap: Global,
    dossier: Settled,
    call: &Call<'_, J>,
) -> Result<(Phase, Entry), AllocError>
    ensures { IfOk result (λ p. One J.meaning (settled_dossier dossier) call.now p.1 (phase_dossier p.0)) }
{
    match call {
        Call::Reopen => Ok((Phase::Open(dossier.reopen()), Entry::Reopened)),
        Call::Write { room } => {
            let file = written(heap, &dossier, *room)?;
            Ok((Phase::Settled(dossier), Entry::Wrote(file)))
        }
        Call::Row { judge, k, work } => {
            let mut area = zeros(heap, *work)?;
            let row = dossier.row(*judge, *k, area.as_mut_slice());
            Ok((Phase::Settled(dossier), Entry::Read(row)))
        }
        Call::Tally { judge, work } => {
            let mut area = zeros(heap, *work)?;
            let tally = dossier.tally(*judge, area.as_mut_slice());
            Ok((Phase::Settled(dossier), Entry::Tallied(tally)))
        }
        Call::Sheet { judge, room, work } => {
            let sheet = listed(heap, &dossier, *judge, *room, *work)?;
            Ok((Phase::Settled(dossier), Entry::Listed(sheet)))
        }
        _ => Ok((Phase::Settled(dossier), Entry::NotTaken)),
    }
}

// One call, made where the dossier takes it. Where there is no memory for its areas it is not made.
pub fn make<J: Judge>(
    heap: Global,
    phase: Phase,
    call: &Call<'_, J>,
) -> Result<(Phase, Entry), AllocError>
    ensures { IfOk result (λ p. One J.meaning (phase_dossier phase) call.now p.1 (phase_dossier p.0)) }
{
    match phase {
        Phase::Open(dossier) => Ok(on_open(heap, dossier, call)),
        Phase::Settled(dossier) => on_settled(heap, dossier, call),
    }
}

// The calls in their order on a new dossier: the dossier after them, and what is recorded of each.
pub fn make_all<J: Judge>(
    heap: Global,
    calls: &[Call<'_, J>],
) -> Result<(Phase, Vec<Entry>), AllocError>
    ensures { IfOk result (λ p. Recorded J.meaning calls.now p.1.items (phase_dossier p.0)) }
{
    let mut phase = Phase::Open(Open::new());
    let mut entries = Vec::new(heap);
    for call in calls {
        let (next, entry) = make(heap, phase, call)?;
        phase = next;
        entries.push(entry)?;
    }
    Ok((phase, entries))
}
