// A table of files, each read whole: what is granted, and what is refused and where.
#![tactic(auto)]

ghost use Rattle.std.specs.Prelude.{length};
ghost use Rattle.std.specs.Iterator.{at_most};

use account::refusals::refused_line;
use account::words::text;
use proof::counts::count;
use std::fs;

// One file of the table.
#[derive(Clone, Copy)]
struct Entry<'a> {
    name: &'a [u8],
    file: &'a [u8],
}

// The entries of a table that are still to come; a cut one ends them.
#[derive(Clone, Copy)]
struct Entries<'a> {
    table: &'a [u8],
}

impl<'a> Iterator for Entries<'a> {
    type Item = Entry<'a>;

    ghost remaining = { λ e. at_most (length e.table.now) };

    // The length of the name in one byte, that of the file in four, low byte first; then name and file.
    fn next(&mut self) -> Option<Entry<'a>> {
        let (name, rest) = self.table.split_first()?;
        let (size, rest) = rest.split_first_chunk()?;
        let (name, rest) = rest.split_at_checked(*name as usize)?;
        let (file, rest) = rest.split_at_checked(u32::from_le_bytes(*size) as usize)?;
        self.table = rest;
        Some(Entry { name, file })
    }
}

fn say(rt: &HostRuntime, entry: &Entry) -> anyhow::Result<()> {
    let name = text(rt.alloc(), entry.name)?;
    match count(entry.file) {
        Ok(counts) => {
            let pending = counts.pending;
            let bitcoin = counts.bitcoin;
            let unknown = counts.unknown;
            println!(rt; "{name}: accepted pending {pending} bitcoin {bitcoin} unknown {unknown}")?;
        }
        Err(fault) => {
            let refused = refused_line(rt.alloc(), &fault)?;
            println!(rt; "{name}: {refused}")?;
        }
    }
    Ok(())
}

fn main(rt: HostRuntime) -> anyhow::Result<()> {
    let table = fs::read(&rt, "cases.bin")?;
    let entries = Entries {
        table: table.as_slice(),
    };
    for entry in entries {
        say(&rt, &entry)?;
    }
    Ok(())
}
