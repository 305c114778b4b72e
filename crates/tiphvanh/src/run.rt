// The calls of a script, made line by line.
ghost use Rattle.std.specs.Prelude.{◌<◌, ◌≤◌, length, IfOk};

use crate::files::{AREA, FileError, PROOF, failed, read};
use crate::judges::Texts;
use crate::outputs::{put, taken};
use anyhow::anyhow;
use coverage::options::main_chain;
use dossier::phases::Open;
use history::call::Call;
use history::entry::Entry;
use history::making::make;
use history::phase::Phase;
use judge::choice::AnyJudge;
use script::answers::{Remark, added_text, bytes_text, refusal_text, row_text, tally_text};
use script::line::{Judges, Line, parse};
use script::words::split;
use std::alloc::{AllocError, Global};
use std::fmt::Display;
use std::{fs, mem};

// The dossier that the lines speak of, whether all went well, and whether files may be overwritten.
#[derive(Drop)]
struct Run<'a> {
    rt: &'a HostRuntime,
    phase: Phase,
    // Kept: these two are plain yes or no; no value stands beside either that an Option could hold.
    well: bool,
    force: bool,
}

// The script at a path. A file that is there already is overwritten only by force.
pub fn run_command(rt: &HostRuntime, path: &str, force: bool) -> anyhow::Result<()> {
    let script = fs::read_to_string(rt, path).map_err(|error| failed(
        rt,
        FileError::Unread(path, error),
    ))?;
    let mut run = Run {
        rt,
        phase: Phase::Open(Open::new()),
        well: true,
        force,
    };
    run.script(script.as_str())?;
    if run.well {
        Ok(())
    } else {
        Err(anyhow!("not all went well"))
    }
}

// The texts of the judge that a line names.
fn texts<'a>(rt: &HostRuntime, judges: &Judges<'a>) -> Result<Texts, FileError<'a>> {
    let (headers, calendars) = match *judges {
        Judges::None => (None, None),
        Judges::Headers(headers) => (Some(headers), None),
        Judges::Calendars(path) => (None, Some(path)),
        Judges::Both(headers, path) => (Some(headers), Some(path)),
    };
    let chain = headers.map_or(main_chain(), |line| line.chain);
    Texts::read(rt, headers.map(|line| line.file), chain, calendars)
}

impl Run<'_> {
    // From one judge to the next, until no line is left.
    fn script(&mut self, script: &str) -> anyhow::Result<()> {
        let lines: Vec<&str> = script.lines().collect(self.rt.alloc())?;
        let mut texts = Texts::none();
        // Kept: a place; a slice of the lines that are left was tried, and the borrow checker does not follow it around the loop.
        let mut from = 0;
        while from < lines.len() {
            let judge = texts.judge();
            let (named, gone) = self.under(&judge, &lines[from..])?;
            from += gone;
            if let Some(named) = named {
                texts = named;
            }
        }
        Ok(())
    }

    // The lines under one judge, each read when its turn comes: the texts of the next judge that can be had, and how many
    // lines that was. A judge goes through its headers when it is made, so a name that cannot be had leaves it be.
    fn under(&mut self, judge: &AnyJudge, lines: &[&str]) -> anyhow::Result<(Option<Texts>, usize)>
        ensures some { IfOk result (λ next. 0 < length lines.now → 0 < next.1) }
        ensures within { IfOk result (λ next. next.1 ≤ length lines.now) }
    {
        for (place, text) in lines.iter().enumerate() {
            let asks = parse(split(text).as_slice());
            let Line::Judge(judges) = &asks else {
                self.line(text, &asks, judge)?;
                continue;
            };
            match texts(self.rt, judges) {
                Ok(texts) => return Ok((Some(texts), place + 1)),
                Err(_) => self.remark(text, Remark::Unread)?,
            }
        }
        Ok((None, lines.len()))
    }

    // What is said of a line that is no call, or whose file cannot be had.
    fn remark(&mut self, text: &str, said: Remark) -> anyhow::Result<()> {
        self.well = false;
        self.answer(text, said)
    }

    // A line is printed back with its answer.
    fn answer(&self, text: &str, answer: impl Display + Drop) -> anyhow::Result<()> {
        println!(self.rt; "{text}: {answer}")?;
        Ok(())
    }

    // One line, with the file that it names. One that names a judge is heeded before.
    fn line(&mut self, text: &str, asks: &Line, judge: &AnyJudge) -> anyhow::Result<()> {
        match *asks {
            Line::Blank | Line::Judge(_) => Ok(()),
            Line::New => {
                self.phase = Phase::Open(Open::new());
                Ok(())
            }
            Line::Add(path) => match read(self.rt, path, PROOF) {
                Ok(file) => self.call(text, None, &Call::Add(file.as_slice())),
                Err(_) => self.remark(text, Remark::Unread),
            },
            Line::Settle => self.call(text, None, &Call::Settle),
            Line::Reopen => self.call(text, None, &Call::Reopen),
            Line::Write { file, room } => {
                let room = area(room);
                self.call(text, place(file), &Call::Write { room })
            }
            Line::Row { k, work } => {
                let work = area(work);
                self.call(text, None, &Call::Row { judge, k, work })
            }
            Line::Tally { work } => {
                let work = area(work);
                self.call(text, None, &Call::Tally { judge, work })
            }
            Line::Sheet { file, room, work } => {
                let (room, work) = (area(room), area(work));
                self.call(text, place(file), &Call::Sheet { judge, room, work })
            }
            Line::NoCall => self.remark(text, Remark::NoCall),
        }
    }

    // The call is made and answered. What it wrote goes to the file.
    fn call(
        &mut self,
        text: &str,
        file: Option<&str>,
        call: &Call<AnyJudge>,
    ) -> anyhow::Result<()> {
        let heap = self.rt.alloc();
        let phase = mem::replace(&mut self.phase, Phase::Open(Open::new()));
        let (next, entry) = make(heap, phase, call)?;
        self.phase = next;
        match &entry {
            Entry::NotTaken => self.answer(text, self.not_taken()),
            Entry::Wrote(Ok(bytes)) | Entry::Listed(Ok(bytes)) => {
                self.answer(text, bytes_text(heap, bytes.as_slice())?.as_str())?;
                self.output(file, bytes.as_slice())
            }
            _ => self.answer(text, entry_text(heap, &entry)?.as_str()),
        }
    }

    fn not_taken(&self) -> Remark {
        match self.phase {
            Phase::Open(_) => Remark::WhileOpen,
            Phase::Settled(_) => Remark::WhileSettled,
        }
    }

    fn output(&mut self, file: Option<&str>, bytes: &[u8]) -> anyhow::Result<()> {
        let rt = self.rt;
        let Some(path) = file else {
            return Ok(());
        };
        if !self.force && taken(rt, path) {
            self.well = false;
            eprintln!(rt; "tiphvanh: {path} exists; run --force overwrites it")?;
            return Ok(());
        }
        if let Err(error) = put(rt, path, bytes) {
            self.well = false;
            eprintln!(rt; "tiphvanh: {error}")?;
        }
        Ok(())
    }
}

fn area(asked: Option<usize>) -> usize {
    asked.unwrap_or(AREA).min(AREA)
}

// Where the bytes of a call go: `-` is no file.
fn place(file: &str) -> Option<&str> {
    (file != "-").then_some(file)
}

// The answers that wrote nothing.
fn entry_text(heap: Global, entry: &Entry) -> Result<String, AllocError> {
    match entry {
        Entry::Added(answer) => added_text(heap, answer),
        Entry::Read(answer) => row_text(heap, answer),
        Entry::Tallied(answer) => tally_text(heap, answer),
        Entry::Wrote(Err(refusal)) | Entry::Listed(Err(refusal)) => refusal_text(heap, refusal),
        _ => added_text(heap, &Ok(())),
    }
}
