// Prints what is left in a work area.
use crate::digests::finish_line;
use crate::paths::proof_path;
use replay::guard::Spare;
use replay::link::Link;
use std::io;

// The digests of the first 4,096 bytes of an area and of those behind.
fn print_area(rt: &HostRuntime, name: &str, area: &[u8]) -> io::Result<()> {
    let Some((first, behind)) = area.split_at_checked(4096) else {
        print!(rt; "area {name} ")?;
        return finish_line(rt, area);
    };
    print!(rt; "area {name} first ")?;
    finish_line(rt, first)?;
    print!(rt; "area {name} behind ")?;
    finish_line(rt, behind)
}

// An area of N bytes after a replay in it.
fn left<const N: usize>(path: &[Link], digest: &[u8]) -> [u8; N] {
    let mut area = [0xaa; N];
    let _ = replay::replay(path, digest, &mut area);
    area
}

pub fn print_left(rt: &HostRuntime) -> io::Result<()> {
    let path = proof_path();
    let digest = sha256::sha256(b"abc");
    let mut area = [0xaa; 4200];
    {
        let spare = Spare(&mut area);
        let _ = replay::replay(&path, &digest, &mut *spare.0);
    }
    print_area(rt, "guarded", &area)?;
    print_area(rt, "replayed", &left::<4200>(&path, &digest))?;
    print_area(rt, "refused", &left::<4200>(&[], &[7; 4097]))?;
    print_area(rt, "too-short", &left::<4095>(&path, &digest))
}
