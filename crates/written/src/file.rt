// Writing a whole file.
ghost use Rattle.std.specs.Prelude.{◌≡◌, ◌+◌, ◌^◌, ◌<◌, ◌≤◌, ◌++◌, length, drop};
ghost use Rattle.claim_trees.specs.Bytes.{file_bytes};
ghost use Rattle.claim_trees.specs.Onto.{node_length, file_length};
ghost use Rattle.claims.specs.Models.{node as node_of};
ghost use Rattle.written.specs.Writers.{written, HasNarrowRoom, Moved};
ghost use Rattle.written.specs.Writing.{capped, wrote, writing};

use crate::lengths::node_length;
use crate::nodes::put_node;
use crate::writer::Writer;
use claims::tree::Node;
use proof::head::{FILE_HASH, MARK};
use proof::steps::FILE;

// The only version.
const VERSION: u8 = 0x01;

// How long the file is, under a digest of 32 bytes: mark, version, file hash tag, digest and node.
pub fn file_length(node: &Node) -> usize
    ensures { result ≡ capped (65 + node_length (node_of node.now).marks (node_of node.now).branches) }
{
    node_length(node).saturating_add(65)
}

// How long the file is, under any digest.
#[tactic(auto, using(claim_trees::proofs::Lengths::file_length_lem))]
fn due(digest: &[u8], n: &Node) -> usize
    ensures { result ≡ capped (length (file_bytes digest.now (node_of n.now).marks (node_of n.now).branches)) }
{
    node_length(n)
        .saturating_add(33)
        .saturating_add(digest.len())
}

#[tactic(auto, using(crate::proofs::Files::file_behind), unfolding(format::specs::Files::mark))]
fn put_file(w: &mut Writer<'_>, digest: &[u8], n: &Node)
    requires { HasNarrowRoom w.old (file_length digest.now (node_of n.now).marks (node_of n.now).branches) }
    ensures moved { Moved w.old w.new (file_length digest.now (node_of n.now).marks (node_of n.now).branches) }
    ensures front { written w.new ≡ written w.old ++ file_bytes digest.now (node_of n.now).marks (node_of n.now).branches }
{
    w.bytes(&MARK);
    w.byte(VERSION);
    w.byte(FILE_HASH);
    w.bytes(digest);
    put_node(w, n)
}

// Fills the area, which is exactly as long as the file.
#[tactic(auto, using(claim_trees::proofs::Lengths::file_length_lem))]
fn fill(out: &mut [u8], digest: &[u8], n: &Node)
    requires { (length out.old ≡ length (file_bytes digest.now (node_of n.now).marks (node_of n.now).branches)) × (length out.old < 2 ^ 32) }
    ensures { out.new ≡ file_bytes digest.now (node_of n.now).marks (node_of n.now).branches }
{
    let mut w = Writer::new(out);
    put_file(&mut w, digest, n);
}

// Writes the file of the digest and the node and answers its length. A file for which the area has no room is not written, nor is
// one that no reader would take for its length; the area is then as it was.
pub fn write_file(digest: &[u8], node: &Node, out: &mut [u8]) -> Option<usize>
    ensures { wrote result out.new ≡ writing digest.now (node_of node.now) out.old }
{
    let due = due(digest, node);
    if due > FILE || due > out.len() {
        return None;
    }
    fill(&mut out[0..due], digest, node);
    Some(due)
}
