// The program: it reads files and prints what the library says of them.
#![tactic(auto)]

mod files;
mod headers_file;
mod judges;
mod merge;
mod outputs;
mod requests;
mod run;
mod sheet;
mod show;
mod words;

use account::commands::Command as Plain;
use files::failed;
use headers_file::headers;
use merge::merge_command;
use report::commands::{Command, parse};
use run::run_command;
use sheet::sheet_command;
use show::show;
use std::process::ExitCode;
use words::words;

const VERSION: &str = "tiphvanh 0.1.0";

fn usage(rt: &HostRuntime) -> anyhow::Result<()> {
    println!(rt; "usage: tiphvanh COMMAND")?;
    println!(rt;
        "  show PROOF   every item of an OpenTimestamps proof with its offset, and its claims counted"
    )?;
    println!(rt; "  show --messages PROOF")?;
    println!(rt; "               the same, with the message that each attestation is of")?;
    println!(rt; "  headers FILE [--base N] [--previous HEX] [--ceiling HEX]")?;
    println!(rt;
        "               the heights and times that a file of block headers covers, and why no more"
    )?;
    println!(rt; "  version      the version of this program")?;
    println!(rt; "  help         this text")?;
    println!(rt; "A refused proof ends with `refused NUMBER at OFFSET` and status 1.")?;
    Ok(())
}

fn asked(rt: &HostRuntime) -> anyhow::Result<()> {
    let words = words(rt)?;
    let list: Vec<&str> = words.iter().map(|word| word.as_str()).collect(rt.alloc())?;
    match parse(&list) {
        Command::Merge(words) => merge_command(rt, words),
        Command::Sheet(words) => sheet_command(rt, words),
        Command::Run(path) => run_command(rt, path, false),
        Command::Overwrite(path) => run_command(rt, path, true),
        Command::Plain(command) => plain(rt, command),
    }
}

// The commands that make no call on a dossier.
fn plain(rt: &HostRuntime, command: Plain) -> anyhow::Result<()> {
    match command {
        Plain::Usage => usage(rt),
        Plain::Version => {
            println!(rt; "{VERSION}")?;
            Ok(())
        }
        Plain::Show(path) => show(rt, path, false),
        Plain::Messages(path) => show(rt, path, true),
        Plain::Headers { path, options } => headers(rt, path, options),
        Plain::Unknown => Err(failed(rt, "not a command: see tiphvanh help")),
    }
}

// Status 1 where something went wrong; of a file or a word it has been said what.
fn main(rt: HostRuntime) -> ExitCode {
    match asked(&rt) {
        Ok(()) => ExitCode::SUCCESS,
        Err(_) => ExitCode::FAILURE,
    }
}
