// The sheet of one proof.
use crate::files;
use crate::files::{AREA, failed, proof};
use crate::judges::Texts;
use crate::requests::{request, texts};
use dossier::phases::{Open, Settled};
use dossier::refusal::Refusal;
use judge::choice::AnyJudge;
use replay::ROOM;
use report::lines::refused_piece_line;
use report::requests::pieces;
use std::io::Write;

// The words are options and the proof.
pub fn sheet_command(rt: &HostRuntime, words: &[&str]) -> anyhow::Result<()> {
    let asked = request(rt, words)?;
    let paths = pieces(rt.alloc(), words)?;
    let [path] = paths.as_slice() else {
        return Err(unclear(rt));
    };
    if asked.out.is_some() || asked.sheet.is_some() || asked.force {
        return Err(unclear(rt));
    }
    let texts = texts(rt, &asked)?;
    let file = proof(rt, path)?;
    sheet(rt, path, file.as_slice(), &texts)
}

fn unclear(rt: &HostRuntime) -> anyhow::Error {
    failed(
        rt,
        "sheet wants one proof, and its judges: see tiphvanh help",
    )
}

// The sheet of a dossier that holds this file alone.
fn sheet(rt: &HostRuntime, path: &str, file: &[u8], texts: &Texts) -> anyhow::Result<()> {
    let judge = texts.judge();
    let mut dossier = Open::new();
    dossier
        .add(rt.alloc(), file)
        .map_err(|refusal| refused(rt, path, &refusal))?;
    let sheet = listed(rt, path, &dossier.settle(), &judge)?;
    rt.stdout().write_all(sheet.as_slice())?;
    Ok(())
}

// The sheet of a dossier, or a line of its refusal under a name.
pub fn listed(
    rt: &HostRuntime,
    name: &str,
    dossier: &Settled,
    judge: &AnyJudge,
) -> anyhow::Result<Vec<u8>> {
    let mut sheet = vec![in rt.alloc(); 0u8; AREA]?;
    let mut work = vec![in rt.alloc(); 0u8; ROOM]?;
    let n = dossier
        .sheet(judge, sheet.as_mut_slice(), work.as_mut_slice())
        .map_err(|refusal| refused(rt, name, &refusal))?;
    sheet.truncate(n);
    Ok(sheet)
}

// A line of a refusal, and the error that ends the program with status 1.
pub fn refused(rt: &HostRuntime, name: &str, refusal: &Refusal) -> anyhow::Error {
    files::refused(say(rt, name, refusal))
}

fn say(rt: &HostRuntime, name: &str, refusal: &Refusal) -> anyhow::Result<()> {
    rt.println(refused_piece_line(rt.alloc(), name, refusal)?)?;
    Ok(())
}
