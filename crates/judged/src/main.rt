// Asks the delivered judges about made-up chains, calendars and payloads, and prints what they say.
#![tactic(auto)]

mod ask;
mod calendars;
mod chains;
mod choices;

use dates::text::text;
use dates::utc::utc;
use std::{env, io};

const TIMES: [u32; 12] = [
    0, 86399, 68169599, 68169600, 68256000, 946684799, 951782400, 951868800, 1231006505,
    4107542399, 4107542400, 4294967295,
];

fn print_dates(rt: &HostRuntime) -> io::Result<()> {
    for time in &TIMES {
        print!(rt; "date {}: ", *time)?;
        ask::print_text(rt, &text(utc(*time)))?;
        println!(rt; "")?;
    }
    Ok(())
}

fn run(rt: &HostRuntime) -> io::Result<()> {
    let mut words = env::args(rt)?;
    let _program = words.next();
    if let Some(file) = words.next() {
        return chains::print_long(rt, file.as_str());
    }
    chains::print_chains(rt)?;
    chains::print_payloads(rt)?;
    calendars::print_calendars(rt)?;
    choices::print_choices(rt)?;
    print_dates(rt)
}

fn main(rt: HostRuntime) -> io::Result<()> {
    run(&rt)
}
