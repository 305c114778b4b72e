// The merge of the proofs of one record.
use crate::files::{AREA, failed, proof};
use crate::judges::Texts;
use crate::outputs::{Draft, taken};
use crate::requests::{request, texts};
use crate::sheet::{listed, refused};
use account::lines::{counts_line, size_line};
use anyhow::anyhow;
use claims::size::size_of;
use gather::file::gather;
use history::merged::{Merged, Piece, Stopped};
use history::merging::merge;
use judge::choice::AnyJudge;
use proof::counts::count;
use replay::ROOM;
use report::lines::{date_line, piece_line, refused_piece_line, verdicts_line, wrote_line};
use report::requests::pieces;

// A proof that is merged, and where it was read.
#[derive(Drop)]
struct Proof<'a> {
    path: &'a str,
    file: Vec<u8>,
}

// A merge that is asked for: where its file and its sheet go, and what they are made of.
#[derive(Drop)]
struct Order<'a> {
    out: &'a str,
    sheet: Option<&'a str>,
    proofs: Vec<Proof<'a>>,
    texts: Texts,
}

// The words are options and the proofs to merge.
pub fn merge_command(rt: &HostRuntime, words: &[&str]) -> anyhow::Result<()> {
    let asked = request(rt, words)?;
    let paths = pieces(rt.alloc(), words)?;
    let Some(out) = asked.out else {
        return Err(failed(rt, "merge wants --out FILE: see tiphvanh help"));
    };
    if paths.is_empty() {
        return Err(failed(rt, "merge wants proofs to merge: see tiphvanh help"));
    }
    free(rt, out, asked.force)?;
    if let Some(sheet) = asked.sheet {
        free(rt, sheet, asked.force)?;
    }
    let texts = texts(rt, &asked)?;
    let order = Order {
        out,
        sheet: asked.sheet,
        proofs: proofs(rt, paths.as_slice())?,
        texts,
    };
    merged(rt, &order)
}

// Nothing is overwritten unless that was asked for.
fn free(rt: &HostRuntime, path: &str, force: bool) -> anyhow::Result<()> {
    if !force && taken(rt, path) {
        return Err(failed(rt, format_args!("{path} exists; --force overwrites it")));
    }
    Ok(())
}

fn proofs<'a>(rt: &HostRuntime, paths: &[&'a str]) -> anyhow::Result<Vec<Proof<'a>>> {
    let mut proofs = Vec::new(rt.alloc());
    for path in paths {
        let file = proof(rt, path)?;
        proofs.push(Proof { path, file })?;
    }
    Ok(proofs)
}

fn merged(rt: &HostRuntime, order: &Order) -> anyhow::Result<()> {
    let heap = rt.alloc();
    let judge = order.texts.judge();
    let pieces: Vec<Piece> = order
        .proofs
        .iter()
        .map(|proof| Piece {
            file: proof.file.as_slice(),
        })
        .collect(heap)?;
    let mut out = vec![in heap; 0u8; AREA]?;
    let mut work = vec![in heap; 0u8; ROOM]?;
    match merge(
        heap,
        pieces.as_slice(),
        &judge,
        out.as_mut_slice(),
        work.as_mut_slice(),
    ) {
        Ok(merged) => {
            granted(rt, order.proofs.as_slice())?;
            out.truncate(merged.length);
            written(rt, order, &judge, &merged, out.as_slice())
        }
        Err(stopped) => unmerged(rt, order.proofs.as_slice(), stopped),
    }
}

// A line for each proof, with how many claims it has.
fn granted(rt: &HostRuntime, proofs: &[Proof]) -> anyhow::Result<()> {
    for proof in proofs {
        if let Ok(node) = gather(rt.alloc(), proof.file.as_slice()) {
            rt.println(piece_line(rt.alloc(), proof.path, size_of(&node).attestations)?)?;
        }
    }
    Ok(())
}

fn unmerged(rt: &HostRuntime, proofs: &[Proof], stopped: Stopped) -> anyhow::Result<()> {
    match stopped {
        // the place is that of a proof
        Stopped::Piece { place, refusal } => {
            if let Some((before, [proof, ..])) = proofs.split_at_checked(place) {
                granted(rt, before)?;
                rt.println(refused_piece_line(rt.alloc(), proof.path, &refusal)?)?;
            }
            println!(rt; "nothing was written")?;
            Err(anyhow!("refused"))
        }
        Stopped::Tally(refusal) => Err(refused(rt, "tally", &refusal)),
        Stopped::Write(refusal) => Err(refused(rt, "write", &refusal)),
    }
}

// Proof and sheet are both made before either takes its place.
fn written(
    rt: &HostRuntime,
    order: &Order,
    judge: &AnyJudge,
    merged: &Merged,
    proof: &[u8],
) -> anyhow::Result<()> {
    // Kept: two matches; a closure for `map` and `transpose` would have to write out the type of a pair in a result.
    let sheet = match order.sheet {
        Some(path) => Some((path, listed(rt, "sheet", &merged.dossier, judge)?)),
        None => None,
    };
    let first = drafted(rt, order.out, proof)?;
    let second = match &sheet {
        Some((path, bytes)) => Some(drafted(rt, path, bytes.as_slice())?),
        None => None,
    };
    placed(rt, first)?;
    if let Some(second) = second {
        placed(rt, second)?;
    }
    holds(rt, merged, proof)?;
    rt.println(wrote_line(rt.alloc(), order.out, proof.len())?)?;
    if let Some((path, bytes)) = &sheet {
        rt.println(wrote_line(rt.alloc(), path, bytes.len())?)?;
    }
    Ok(())
}

fn drafted<'a>(rt: &HostRuntime, path: &'a str, bytes: &[u8]) -> anyhow::Result<Draft<'a>> {
    Draft::new(rt, path, bytes).map_err(|error| failed(rt, error))
}

fn placed(rt: &HostRuntime, draft: Draft) -> anyhow::Result<()> {
    draft.place(rt).map_err(|error| failed(rt, error))
}

// What is read back of the written bytes, and what the judge says of it.
fn holds(rt: &HostRuntime, merged: &Merged, proof: &[u8]) -> anyhow::Result<()> {
    let heap = rt.alloc();
    if let Ok(counts) = count(proof) {
        rt.println(counts_line(heap, &counts)?)?;
    }
    if let Ok(node) = gather(heap, proof) {
        let size = size_of(&node);
        rt.println(size_line(heap, &size)?)?;
    }
    rt.println(verdicts_line(heap, &merged.tally)?)?;
    rt.println(date_line(heap, &merged.tally.date)?)?;
    Ok(())
}
