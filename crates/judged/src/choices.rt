// Each judge that a program can choose, under a tag of each kind.
use crate::ask::{BITCOIN, PENDING, UNKNOWN, print_verdict};
use crate::chains::made;
use judge::calendar_judge::CalendarJudge;
use judge::choice::AnyJudge;
use judge::header_judge::HeaderJudge;
use judge::judge::Judge;
use judge::pair::Pair;
use std::{fs, io};

fn print_tag<J: Judge>(
    rt: &HostRuntime,
    judge: &J,
    tag: &[u8],
    payload: &[u8],
    message: &[u8],
) -> io::Result<()> {
    let owned = if judge.owns(tag) {
        "owned"
    } else {
        "not owned"
    };
    print!(rt; "{owned}, ")?;
    print_verdict(rt, judge.verdict(tag, payload, message))
}

fn print_judge<J: Judge>(rt: &HostRuntime, name: &str, judge: &J, root: &[u8]) -> io::Result<()> {
    let kinds: [(&str, &[u8], &[u8]); 3] = [
        ("bitcoin", &BITCOIN, &[0]),
        ("pending", &PENDING, b"\x15https://a.example.org"),
        ("unknown", &UNKNOWN, &[0]),
    ];
    for (kind, tag, payload) in kinds {
        print!(rt; "{name} {kind}: ")?;
        print_tag(rt, judge, tag, payload, root)?;
    }
    Ok(())
}

fn print_chosen(rt: &HostRuntime, name: &str, judge: AnyJudge, root: &[u8]) -> io::Result<()> {
    print_judge(rt, name, &judge, root)
}

fn print_judges<'x>(
    rt: &HostRuntime,
    first: HeaderJudge<'x>,
    second: CalendarJudge<'x>,
    root: &[u8],
) -> io::Result<()> {
    print_chosen(rt, "nobody", AnyJudge::Nobody, root)?;
    print_chosen(rt, "headers", AnyJudge::Headers(first), root)?;
    print_chosen(rt, "calendars", AnyJudge::Calendars(second), root)?;
    print_chosen(rt, "both", AnyJudge::Both(first, second), root)?;
    print_judge(rt, "pair", &Pair { first, second }, root)
}

pub fn print_choices(rt: &HostRuntime) -> io::Result<()> {
    let bytes = fs::read(rt, "whole.bin")?;
    let text = fs::read(rt, "calendars.txt")?;
    let (headers, _rest) = bytes.as_chunks::<80>();
    if let Some(first) = headers.first() {
        print_judges(
            rt,
            HeaderJudge::new(&made(0), &bytes),
            CalendarJudge::new(&text),
            &first[36..68],
        )?;
    }
    Ok(())
}
