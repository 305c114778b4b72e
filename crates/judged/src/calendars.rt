// The calendar judge on texts of addresses.
use crate::ask::{PENDING, print_asked};
use judge::calendar_judge::CalendarJudge;
use std::{fs, io};

fn print_text(rt: &HostRuntime, name: &str, path: &str) -> io::Result<()> {
    let text = fs::read(rt, path)?;
    let judge = CalendarJudge::new(&text);
    let payloads: [(&str, &[u8]); 10] = [
        ("listed", b"\x15https://a.example.org"),
        ("last", b"\x15https://c.example.org"),
        ("beginning", b"\x14https://a.example.or"),
        ("longer", b"\x16https://a.example.org/"),
        ("behind-return", b"\x17https://b.example.org/x"),
        ("none", b"\x15https://d.example.org"),
        ("empty", b"\x00"),
        ("spaces", b"\x0ano address"),
        ("cut", b"\x16https://c.example.org"),
        ("trailing", b"\x14https://c.example.org"),
    ];
    for (case, payload) in payloads {
        print_asked(rt, &judge, name, case, &PENDING, payload, b"message")?;
    }
    Ok(())
}

pub fn print_calendars(rt: &HostRuntime) -> io::Result<()> {
    print_text(rt, "calendars", "calendars.txt")?;
    print_text(rt, "ended", "ended.txt")?;
    print_text(rt, "nothing", "nothing.txt")
}
