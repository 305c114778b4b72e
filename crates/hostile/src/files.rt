// Files of many items, within 65,536 bytes. Where items have kinds, item number i is of kind i % kinds.
ghost use Rattle.std.specs.Prelude.{◌<◌};

use crate::parts::{MORE, SHA256, append, deeper, head, leaf, node};
use std::alloc::{AllocError, Global};

// Leaves in one node under depth operations: depth operations, kinds attestations.
pub fn leaves(heap: Global, depth: u16, n: u16, kinds: u16) -> Result<Vec<u8>, AllocError>
    requires { 0 < kinds }
{
    let mut file = head(heap)?;
    deeper(&mut file, depth)?;
    node(&mut file, n, |file, i| leaf(file, i % kinds))?;
    Ok(file)
}

// An append over a leaf.
fn branch(file: &mut Vec<u8>, kind: u16) -> Result<(), AllocError> {
    append(file, kind)?;
    leaf(file, 0)
}

// Branches at the top: kinds operations and attestations, and two bytes for each.
pub fn branches(heap: Global, n: u16, kinds: u16) -> Result<Vec<u8>, AllocError>
    requires { 0 < kinds }
{
    let mut file = head(heap)?;
    node(&mut file, n, |file, i| branch(file, i % kinds))?;
    Ok(file)
}

// 255 operations, an append first, over a leaf.
fn chain(file: &mut Vec<u8>, kind: u16) -> Result<(), AllocError> {
    append(file, kind)?;
    deeper(file, 254)?;
    leaf(file, 0)
}

// Chains at the top: 255 operations, an attestation and two bytes for each kind.
pub fn chains(heap: Global, n: u16, kinds: u16) -> Result<Vec<u8>, AllocError>
    requires { 0 < kinds }
{
    let mut file = head(heap)?;
    node(&mut file, n, |file, i| chain(file, i % kinds))?;
    Ok(file)
}

// Chains, then equal leaves beside them: an attestation more than the chains have.
pub fn chains_and_leaves(heap: Global, chains: u16, n: u16) -> Result<Vec<u8>, AllocError> {
    let mut file = head(heap)?;
    for i in 0..chains {
        file.extend_from_slice(&MORE)?;
        chain(&mut file, i)?;
    }
    node(&mut file, n, |file, _| leaf(file, 0))?;
    Ok(file)
}

// Branches of branches: outer + outer * inner operations, outer * inner attestations.
pub fn wide(heap: Global, outer: u16, inner: u16) -> Result<Vec<u8>, AllocError> {
    let mut file = head(heap)?;
    node(&mut file, outer, |file, i| {
        append(file, i)?;
        node(file, inner, |file, j| branch(file, j))
    })?;
    Ok(file)
}

// A leaf beside each operation of one path, and one at its end: depth operations, one attestation more.
pub fn ladder(heap: Global, depth: u16) -> Result<Vec<u8>, AllocError> {
    let mut file = head(heap)?;
    for _ in 0..depth {
        file.extend_from_slice(&MORE)?;
        leaf(&mut file, 0)?;
        file.extend_from_slice(&SHA256)?;
    }
    leaf(&mut file, 0)?;
    Ok(file)
}

// Two equal branches in every node down to depth, where leaves are: depth operations, one attestation.
pub fn halves(heap: Global, depth: u16) -> Result<Vec<u8>, AllocError> {
    let mut below = Vec::new(heap);
    leaf(&mut below, 0)?;
    for _ in 0..depth {
        let mut above = Vec::new(heap);
        node(&mut above, 2, |above, _| {
            above.extend_from_slice(&SHA256)?;
            above.extend_from_slice(&below)
        })?;
        below = above;
    }
    let mut file = head(heap)?;
    file.extend_from_slice(&below)?;
    Ok(file)
}
