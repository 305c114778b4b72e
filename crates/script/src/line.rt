// A line of a script as a call.
ghost use Rattle.std.specs.Prelude.{◌≡◌};
ghost use Rattle.script.specs.Calls.{call, call_of, call_or_none, report_of, judged, judge_of, chained, chain_of};

use crate::sizes::size;
use coverage::reading::{bits, hash, number};
use headers::chain::Chain;

// A file of headers, and what its first header is held to be.
#[derive(Clone, Copy)]
pub struct HeaderLine<'a> {
    pub file: &'a str,
    pub chain: Chain,
}

// Who judges from here on.
#[derive(Clone, Copy)]
pub enum Judges<'a> {
    None,
    Headers(HeaderLine<'a>),
    Calendars(&'a str),
    Both(HeaderLine<'a>, &'a str),
}

// Kept: an enum beside the calls of a dossier, since files are not read here, and a judge is named and not given.
#[derive(Clone, Copy)]
pub enum Line<'a> {
    Blank,
    New,
    Judge(Judges<'a>),
    Add(&'a str),
    Settle,
    Reopen,
    Write {
        file: &'a str,
        room: Option<usize>,
    },
    Row {
        k: usize,
        work: Option<usize>,
    },
    Tally {
        work: Option<usize>,
    },
    Sheet {
        file: &'a str,
        room: Option<usize>,
        work: Option<usize>,
    },
    NoCall,
}

pub fn parse<'a>(words: &[&'a str]) -> Line<'a>
    ensures { call result ≡ call_of words.now }
{
    read(words).unwrap_or(Line::NoCall)
}

fn read<'a>(words: &[&'a str]) -> Option<Line<'a>>
    ensures { call_or_none result ≡ call_of words.now }
{
    let line = match *words {
        [] => Line::Blank,
        ["new"] => Line::New,
        ["add", file] => Line::Add(file),
        ["settle"] => Line::Settle,
        ["reopen"] => Line::Reopen,
        ["judge", ..] => Line::Judge(judge(words)?),
        _ => return report(words),
    };
    Some(line)
}

// The calls that report.
#[tactic(auto, unfolding(crate::specs::Calls::report_of))]
fn report<'a>(words: &[&'a str]) -> Option<Line<'a>>
    ensures { call_or_none result ≡ report_of words.now }
{
    let line = match *words {
        ["write", file] => Line::Write { file, room: None },
        ["write", file, room] => Line::Write {
            file,
            room: Some(size(room)?),
        },
        ["row", k] => Line::Row {
            k: size(k)?,
            work: None,
        },
        ["row", k, work] => Line::Row {
            k: size(k)?,
            work: Some(size(work)?),
        },
        ["tally"] => Line::Tally { work: None },
        ["tally", work] => Line::Tally {
            work: Some(size(work)?),
        },
        ["sheet", file] => Line::Sheet {
            file,
            room: None,
            work: None,
        },
        ["sheet", file, room] => Line::Sheet {
            file,
            room: Some(size(room)?),
            work: None,
        },
        ["sheet", file, room, work] => Line::Sheet {
            file,
            room: Some(size(room)?),
            work: Some(size(work)?),
        },
        _ => return None,
    };
    Some(line)
}

fn judge<'a>(words: &[&'a str]) -> Option<Judges<'a>>
    ensures { judged result ≡ judge_of words.now }
{
    let judges = match *words {
        ["judge", "none"] => Judges::None,
        ["judge", "calendars", file] => Judges::Calendars(file),
        ["judge", "headers", file, base, previous, ceiling] => {
            Judges::Headers(header_line(file, base, previous, ceiling)?)
        }
        [
            "judge",
            "headers",
            file,
            base,
            previous,
            ceiling,
            "calendars",
            calendars,
        ] => { Judges::Both(header_line(file, base, previous, ceiling)?, calendars) }
        _ => return None,
    };
    Some(judges)
}

// A file of headers and its options.
fn header_line<'a>(
    file: &'a str,
    base: &str,
    previous: &str,
    ceiling: &str,
) -> Option<HeaderLine<'a>>
    ensures { chained result ≡ chain_of file.now base.now previous.now ceiling.now }
{
    let chain = Chain {
        base: number(base)?,
        previous: hash(previous.as_bytes())?,
        ceiling: bits(ceiling.as_bytes())?,
    };
    Some(HeaderLine { file, chain })
}
