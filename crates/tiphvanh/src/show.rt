// The account of one proof.
use crate::files;
use crate::files::{failed, proof};
use account::lines::{
    canonical_line, counts_line, digest_line, item_line, message_line, root_line, size_line,
};
use account::refusals::{around_line, fault_line, refused_line};
use claims::size::size_of;
use gather::file::gather;
use gather::trouble::Trouble;
use proof::counts::count;
use proof::fault::Fault;
use proof::item::{Content, Item};
use proof::walk::{Step, Walk};
use replay::link::Link;
use replay::{ROOM, replay};
use written::file::file_length;

// With messages, where they are asked for.
pub fn show(rt: &HostRuntime, path: &str, messages: bool) -> anyhow::Result<()> {
    let file = proof(rt, path)?;
    account(rt, file.as_slice(), messages)
}

// Nothing is printed of a file before all of it has been read.
fn account(rt: &HostRuntime, file: &[u8], messages: bool) -> anyhow::Result<()> {
    let counts = count(file).map_err(|fault| refused(rt, file, &fault))?;
    items(rt, file, messages)?;
    rt.println(counts_line(rt.alloc(), &counts)?)?;
    size(rt, file)?;
    let read = file.len();
    println!(rt; "read {read} bytes")?;
    Ok(())
}

// The digest, then every item.
fn items<'a>(rt: &'a HostRuntime, file: &'a [u8], messages: bool) -> anyhow::Result<()> {
    let mut walk = Walk::new(file).map_err(|fault| refused(rt, file, &fault))?;
    let head = walk.head();
    let digest = head.digest;
    rt.println(digest_line(rt.alloc(), digest, head.hash)?)?;
    let mut trail = Trail {
        rt,
        messages,
        digest,
        path: Vec::new(rt.alloc()),
    };
    while let Some(step) = walk.next().map_err(|fault| refused(rt, file, &fault))? {
        trail.item(&step)?;
    }
    Ok(())
}

// The way down to an item. The path holds the operations above the next item: as many as it is deep.
#[derive(Drop)]
struct Trail<'a> {
    rt: &'a HostRuntime,
    messages: bool,
    digest: &'a [u8],
    path: Vec<Link<'a>>,
}

impl<'a> Trail<'a> {
    fn item(&mut self, step: &Step<'a>) -> anyhow::Result<()> {
        self.rt.println(item_line(self.rt.alloc(), step)?)?;
        self.path.truncate(step.depth as usize);
        match step.item {
            Item::Operation { kind, argument, .. } => {
                self.path.push(Link { kind, argument })?;
                Ok(())
            }
            Item::Attestation { content, .. } if self.messages => self.message(
                step.depth, &content,
            ),
            Item::Attestation { .. } => Ok(()),
        }
    }

    // The message that the path makes of the digest; turned round too under a block, as its root is printed elsewhere.
    fn message(&self, depth: u8, content: &Content) -> anyhow::Result<()> {
        let heap = self.rt.alloc();
        let mut area = [0u8; ROOM];
        if let Some(size) = replay(self.path.as_slice(), self.digest, &mut area) {
            let message = &area[0..size];
            self.rt.println(message_line(heap, depth, message)?)?;
            if let Content::Bitcoin(_) = content {
                self.rt.println(root_line(heap, depth, message)?)?;
            }
        }
        Ok(())
    }
}

// The size of the set of claims beside its limits, and how long its canonical file is.
fn size(rt: &HostRuntime, file: &[u8]) -> anyhow::Result<()> {
    match gather(rt.alloc(), file) {
        Ok(node) => {
            let size = size_of(&node);
            rt.println(size_line(rt.alloc(), &size)?)?;
            rt.println(canonical_line(rt.alloc(), file_length(&node))?)?;
            Ok(())
        }
        Err(Trouble::Large) => {
            println!(rt; "size: above a limit")?;
            Ok(())
        }
        Err(Trouble::Memory) => Err(failed(rt, "memory is short")),
        Err(Trouble::File(fault)) => Err(refused(rt, file, &fault)),
    }
}

// What is wrong with the file, and the error that ends the program with status 1.
fn refused(rt: &HostRuntime, file: &[u8], fault: &Fault) -> anyhow::Error {
    files::refused(say(rt, file, fault))
}

fn say(rt: &HostRuntime, file: &[u8], fault: &Fault) -> anyhow::Result<()> {
    let heap = rt.alloc();
    rt.println(fault_line(heap, fault)?)?;
    rt.println(around_line(heap, file, fault.offset())?)?;
    rt.println(refused_line(heap, fault)?)?;
    Ok(())
}
