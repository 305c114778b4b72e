// The most hostile legal files, made in memory, and what gathering their claims answers.
//
// The answers in `stdout` follow from the rules by hand: a set of claims has as many operations as its paths have distinct
// beginnings, as many attestations as distinct claims, and the bytes of each beginning's last argument; every payload here
// is empty. Each file says beside it how many of each it has. More than 1,024 operations or 128 attestations are too large.
#![tactic(auto)]

mod files;
mod parts;

use claims::size::size_of;
use files::{branches, chains, chains_and_leaves, halves, ladder, leaves, wide};
use gather::file::gather;
use gather::trouble::Trouble;

fn say(rt: &HostRuntime, name: &str, file: &[u8]) -> anyhow::Result<()> {
    let length = file.len();
    match gather(rt.alloc(), file) {
        Ok(node) => {
            let size = size_of(&node);
            let operations = size.operations;
            let attestations = size.attestations;
            let bytes = size.bytes;
            println!(rt;
                "{name}: {length} bytes, operations {operations} attestations {attestations} bytes {bytes}"
            )?;
        }
        Err(Trouble::Large) => println!(rt; "{name}: {length} bytes, large")?,
        Err(Trouble::Memory) => println!(rt; "{name}: {length} bytes, memory")?,
        Err(Trouble::File(fault)) => {
            let number = fault.number();
            let offset = fault.offset();
            println!(rt; "{name}: {length} bytes, refused {number} at {offset}")?;
        }
    }
    Ok(())
}

// Many items in one node.
fn say_flat(rt: &HostRuntime) -> anyhow::Result<()> {
    let heap = rt.alloc();
    say(rt, "equal leaves at the top", &leaves(heap, 0, 5952, 1)?)?;
    say(rt, "equal leaves under 255", &leaves(heap, 255, 5928, 1)?)?;
    say(rt, "128 leaves under 255", &leaves(heap, 255, 5928, 128)?)?;
    say(rt, "129 leaves under 255", &leaves(heap, 255, 5928, 129)?)?;
    say(rt, "distinct leaves", &leaves(heap, 0, 5952, 5952)?)?;
    say(rt, "equal branches", &branches(heap, 4364, 1)?)?;
    say(rt, "128 branches", &branches(heap, 4364, 128)?)?;
    say(rt, "distinct branches", &branches(heap, 4364, 4364)?)?;
    Ok(())
}

// Long paths, and nodes below nodes.
fn say_deep(rt: &HostRuntime) -> anyhow::Result<()> {
    let heap = rt.alloc();
    say(rt, "equal chains", &chains(heap, 242, 1)?)?;
    say(rt, "4 chains", &chains(heap, 242, 4)?)?;
    say(rt, "5 chains", &chains(heap, 242, 5)?)?;
    say(
        rt,
        "4 chains before leaves",
        &chains_and_leaves(heap, 4, 5852)?,
    )?;
    say(rt, "64 by 64 branches", &wide(heap, 64, 64)?)?;
    say(rt, "64 by 63 branches", &wide(heap, 64, 63)?)?;
    say(rt, "ladder of 127", &ladder(heap, 127)?)?;
    say(rt, "ladder of 255", &ladder(heap, 255)?)?;
    say(rt, "two equal halves, 12 deep", &halves(heap, 12)?)?;
    Ok(())
}

fn main(rt: HostRuntime) -> anyhow::Result<()> {
    say_flat(&rt)?;
    say_deep(&rt)
}
