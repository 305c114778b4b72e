// A question to a judge, and its verdict in words.
use dates::text::text;
use dates::utc::utc;
use judge::judge::Judge;
use judge::verdict::Verdict;
use std::io;

// The tags as the format gives them, told apart from the code that is asked.
pub const BITCOIN: [u8; 8] = [0x05, 0x88, 0x96, 0x0d, 0x73, 0xd7, 0x19, 0x01];

pub const PENDING: [u8; 8] = [0x83, 0xdf, 0xe3, 0x0d, 0x2e, 0xf9, 0x0c, 0x8e];

pub const UNKNOWN: [u8; 8] = [0x05, 0x88, 0x96, 0x0d, 0x73, 0xd7, 0x19, 0x02];

pub fn print_text(rt: &HostRuntime, bytes: &[u8]) -> io::Result<()> {
    for b in bytes {
        print!(rt; "{}", *b as char)?;
    }
    Ok(())
}

pub fn print_verdict(rt: &HostRuntime, verdict: Verdict) -> io::Result<()> {
    match verdict {
        Verdict::Confirmed(time) => {
            print!(rt; "confirmed {time} ")?;
            print_text(rt, &text(utc(time)))?;
            println!(rt; "")
        }
        Verdict::Rejected => println!(rt; "rejected"),
        Verdict::Waiting => println!(rt; "waiting"),
        Verdict::Foreign => println!(rt; "foreign"),
    }
}

// What a judge says of a payload and a message, on a line of its own.
pub fn print_asked<J: Judge>(
    rt: &HostRuntime,
    judge: &J,
    group: &str,
    name: &str,
    tag: &[u8],
    payload: &[u8],
    message: &[u8],
) -> io::Result<()> {
    print!(rt; "{group} {name}: ")?;
    print_verdict(rt, judge.verdict(tag, payload, message))
}
