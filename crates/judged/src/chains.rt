// The header judge on chains of headers.
ghost use Rattle.std.specs.Prelude.{◌≡◌, ◌+◌, ◌/◌, ◌%◌, [], ◌∷◌};

use crate::ask::{BITCOIN, print_asked, print_verdict};
use headers::chain::Chain;
use headers::ending::Ending;
use judge::header_judge::HeaderJudge;
use judge::judge::Judge;
use std::{fs, io};

// The chains were made to stand on this hash, under this ceiling.
const PREVIOUS: [u8; 32] = [0x5a; 32];

const CEILING: u32 = 0x207fffff;

// Bitcoin's first header stands on nothing.
const NOTHING: [u8; 32] = [0; 32];

// A made chain whose first header has the height base.
pub fn made(base: u32) -> Chain {
    Chain {
        base,
        previous: PREVIOUS,
        ceiling: CEILING,
    }
}

// Kept: the type is another crate's, so its `Display` cannot stand here, and a wrapper for it would be no plainer than a function.
fn words(ending: Ending) -> &'static str {
    match ending {
        Ending::Ceiling => "the ceiling is unlawful",
        Ending::Complete => "the bytes end",
        Ending::Count => "a run has no more headers",
        Ending::Height => "the next height is too great",
        Ending::Cut => "the next header is cut short",
        Ending::Link => "the next header names another hash",
        Ending::Bits => "the next header has unlawful bits",
        Ending::Target => "the next header has a target above the ceiling",
        Ending::Work => "the next header has a hash above its target",
    }
}

fn print_run(rt: &HostRuntime, name: &str, judge: &HeaderJudge) -> io::Result<()> {
    let run = judge.run();
    let covered = run.covered;
    println!(rt; "{name}: covers {covered}, {}", words(run.ending))
}

// A height in five bytes, whatever its size.
// Kept: a closure over the five places is no plainer, since the last of them has no 0x80.
fn padded(height: u32) -> [u8; 5]
    ensures { result ≡ (height % 128 + 128) ∷ (height / 128 % 128 + 128) ∷ (height / 16384 % 128 + 128) ∷ (height / 2097152 % 128 + 128) ∷ (height / 268435456) ∷ [] }
{
    [
        (height % 128) as u8 + 128,
        (height / 128 % 128) as u8 + 128,
        (height / 16384 % 128) as u8 + 128,
        (height / 2097152 % 128) as u8 + 128,
        (height / 268435456) as u8,
    ]
}

// The root of the header at place k, or zeros where there is none. Its bytes are picked here, and not by the code that is asked.
fn root(bytes: &[u8], k: usize) -> [u8; 32] {
    let mut root = [0; 32];
    let (headers, _rest) = bytes.as_chunks::<80>();
    if let Some(header) = headers.get(k) {
        root.copy_from_slice(&header[36..68]);
    }
    root
}

// The root with its first bit turned.
fn turned(mut root: [u8; 32]) -> [u8; 32] {
    root[0] ^= 1;
    root
}

fn print_height(
    rt: &HostRuntime,
    name: &str,
    judge: &HeaderJudge,
    height: u32,
    root: &[u8; 32],
) -> io::Result<()> {
    print!(rt; "{name} height {height}: ")?;
    print_verdict(rt, judge.verdict(&BITCOIN, &padded(height), root))?;
    print!(rt; "{name} height {height} turned: ")?;
    print_verdict(rt, judge.verdict(&BITCOIN, &padded(height), &turned(*root)))
}

// The run, and every height from the one before it to the one behind it.
fn print_chain(rt: &HostRuntime, name: &str, chain: &Chain, bytes: &[u8]) -> io::Result<()> {
    let judge = HeaderJudge::new(chain, bytes);
    print_run(rt, name, &judge)?;
    if let Some(before) = chain.base.checked_sub(1) {
        print_height(rt, name, &judge, before, &[0; 32])?;
    }
    for (k, height) in (0..=judge.run().covered).zip(chain.base..=u32::MAX) {
        print_height(rt, name, &judge, height, &root(bytes, k))?;
    }
    Ok(())
}

fn print_file(rt: &HostRuntime, name: &str, base: u32) -> io::Result<()> {
    let path = format!(in rt.alloc(); "{name}.bin")?;
    let bytes = fs::read(rt, path.as_str())?;
    print_chain(rt, name, &made(base), &bytes)
}

fn print_first(rt: &HostRuntime) -> io::Result<()> {
    let bytes = fs::read(rt, "first.bin")?;
    let chain = Chain {
        base: 0,
        previous: NOTHING,
        ceiling: 0x1d00ffff,
    };
    print_chain(rt, "first", &chain, &bytes)
}

fn print_unlawful(rt: &HostRuntime) -> io::Result<()> {
    let bytes = fs::read(rt, "whole.bin")?;
    let chain = Chain {
        ceiling: 0x20800000,
        ..made(0)
    };
    print_chain(rt, "unlawful-ceiling", &chain, &bytes)
}

// Each chain but the whole one breaks in one way.
pub fn print_chains(rt: &HostRuntime) -> io::Result<()> {
    let files = [
        ("whole", 0),
        ("empty", 7),
        ("link", 100),
        ("first-link", 100),
        ("bit-23", 200),
        ("zero", 300),
        ("fraction", 300),
        ("too-large", 400),
        ("above-ceiling", 400),
        ("just-above", 400),
        ("smaller-target", 500),
        ("no-work", 500),
        ("small-no-work", 500),
        ("cut-79", 600),
        ("cut-1", 600),
        ("height", 4294967293),
        ("last-height", 4294967293),
    ];
    print_first(rt)?;
    for (name, base) in files {
        print_file(rt, name, base)?;
    }
    print_unlawful(rt)
}

// The first root of a chain under payloads of every form.
pub fn print_payloads(rt: &HostRuntime) -> io::Result<()> {
    let bytes = fs::read(rt, "whole.bin")?;
    let judge = HeaderJudge::new(&made(0), &bytes);
    let root = root(&bytes, 0);
    let payloads: [(&str, &[u8]); 8] = [
        ("short", &[0]),
        ("padded", &[0x80, 0x00]),
        ("greatest", &[0xff, 0xff, 0xff, 0xff, 0x0f]),
        ("none", &[]),
        ("cut", &[0x80]),
        ("trailing", &[0x00, 0x00]),
        ("too-large", &[0xff, 0xff, 0xff, 0xff, 0x1f]),
        ("too-long", &[0x80, 0x80, 0x80, 0x80, 0x80, 0x00]),
    ];
    for (name, payload) in payloads {
        print_asked(rt, &judge, "payload", name, &BITCOIN, payload, &root)?;
    }
    Ok(())
}

// The run alone of a file of headers from height 0 on.
pub fn print_long(rt: &HostRuntime, path: &str) -> io::Result<()> {
    let bytes = fs::read(rt, path)?;
    let chain = Chain {
        previous: NOTHING,
        ..made(0)
    };
    print_run(rt, path, &HeaderJudge::new(&chain, &bytes))
}
