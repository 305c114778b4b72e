// Prints what paths make of digests.
use crate::digests::{finish_line, pattern};
use crate::messages::print_bytes;
use format::Kind;
use replay::link::Link;
use std::io;

fn link(kind: Kind, argument: &'static [u8]) -> Link<'static> {
    Link { kind, argument }
}

// A link of a kind that takes no argument.
fn bare(kind: Kind) -> Link<'static> {
    link(kind, b"")
}

// A path as it stands in a proof: what was stamped is made one with others, hash by hash, and turned about at last.
pub fn proof_path() -> [Link<'static>; 7] {
    [
        link(Kind::Append, b"salt of 16 bytes"),
        bare(Kind::Sha256),
        link(Kind::Prepend, b"\x01\x02\x03\xfd\xfe\xff"),
        bare(Kind::Sha256),
        bare(Kind::Reverse),
        bare(Kind::Hexlify),
        link(Kind::Append, b"\n"),
    ]
}

// The message, where it is short, and its digest; or that there is none.
fn print_path(rt: &HostRuntime, name: &str, path: &[Link], digest: &[u8]) -> io::Result<()> {
    let mut area = [0xaa; 4200];
    print!(rt; "replay {name} ")?;
    let Some(size) = replay::replay(path, digest, &mut area) else {
        return println!(rt; "none");
    };
    print!(rt; "{size} ")?;
    if size <= 128 {
        print_bytes(rt, &area[..size])?;
    }
    finish_line(rt, &area[..size])
}

pub fn print_replayed(rt: &HostRuntime) -> io::Result<()> {
    let path = proof_path();
    let bytes = pattern();
    let digest = sha256::sha256(b"abc");
    print_path(rt, "nothing", &[], &digest)?;
    print_path(rt, "proof", &path, &digest)?;
    print_path(rt, "proof-begun", &path[..3], &digest)?;
    print_path(rt, "hashes-255", &[bare(Kind::Sha256); 255], &digest)?;
    print_path(rt, "digits-to-4096", &[bare(Kind::Hexlify); 7], &digest)?;
    print_path(rt, "there-and-back", &[bare(Kind::Reverse); 2], &bytes)?;
    print_path(rt, "digest-of-4096", &[], &bytes)
}

// One byte too many: in the digest, at the end of a path, and on the way.
pub fn print_refused(rt: &HostRuntime) -> io::Result<()> {
    let bytes = pattern();
    let more = link(Kind::Append, b"!");
    let digest = sha256::sha256(b"abc");
    print_path(rt, "digits-to-8192", &[bare(Kind::Hexlify); 8], &digest)?;
    print_path(rt, "a-byte-over", &[more], &bytes)?;
    print_path(rt, "over-on-the-way", &[more, bare(Kind::Sha256)], &bytes)?;
    print_path(
        rt,
        "back-from-the-limit",
        &[bare(Kind::Sha256), more],
        &bytes,
    )?;
    print_path(rt, "digest-too-long", &[bare(Kind::Sha256)], &[7; 4097])
}
