// The parts that files are made of.
use proof::head::MARK;
use std::alloc::{AllocError, Global};

// Another item follows the next one.
pub const MORE: [u8; 1] = [0xff];

pub const SHA256: [u8; 1] = [0x08];

// Mark, version, file hash and digest: 65 bytes.
pub fn head(heap: Global) -> Result<Vec<u8>, AllocError> {
    let mut file = MARK.to_vec(heap)?;
    file.extend_from_slice(&[0x01, 0x08])?;
    file.extend_from_slice(&[0x5a; 32])?;
    Ok(file)
}

// An attestation under a tag of its own for each number, with an empty payload: 10 bytes.
pub fn leaf(file: &mut Vec<u8>, n: u16) -> Result<(), AllocError> {
    file.extend_from_slice(&[0x00, 0x11, 0x22, 0x33, 0x44, 0x55, 0x66])?;
    file.extend_from_slice(&n.to_be_bytes())?;
    file.extend_from_slice(&[0x00])
}

// An append with an argument of its own for each number: 4 bytes.
pub fn append(file: &mut Vec<u8>, n: u16) -> Result<(), AllocError> {
    file.extend_from_slice(&[0xf0, 0x02])?;
    file.extend_from_slice(&n.to_be_bytes())
}

// As many operations, each under the one before.
pub fn deeper(file: &mut Vec<u8>, n: u16) -> Result<(), AllocError> {
    for _ in 0..n {
        file.extend_from_slice(&SHA256)?;
    }
    Ok(())
}

// The items of a node, each as it is written for its number: ff before every one but the last.
pub fn node<F: Fn(&mut Vec<u8>, u16) -> Result<(), AllocError>>(
    file: &mut Vec<u8>,
    n: u16,
    item: F,
) -> Result<(), AllocError>
    requires { F.IsAlwaysCallable item }
{
    for i in 0..n {
        if i + 1 < n {
            file.extend_from_slice(&MORE)?;
        }
        item(file, i)?;
    }
    Ok(())
}
