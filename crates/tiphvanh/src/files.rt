// Reading files, and saying what went wrong.
use anyhow::anyhow;
use std::fmt::Display;
use std::io::Read;
use std::{fmt, fs, io};

// One byte more than the longest proof, so that a longer file shows.
pub const PROOF: usize = 65537;

// One header more than a run may have, so that a longer file shows.
pub const HEADERS: usize = 65536 * 80 + 80;

// An area that is large enough for every file and sheet; a larger one changes no answer.
pub const AREA: usize = 65536;

// What cannot be done with the file at a path, and why.
#[derive(Drop)]
pub enum FileError<'a> {
    Unread(&'a str, io::Error),
    Unwritten(&'a str, io::Error),
}

impl fmt::Display for FileError<'_> {
    fn fmt<W: fmt::Write>(&self, f: &mut fmt::Formatter<W>) -> fmt::Result {
        match self {
            FileError::Unread(path, error) => write!(f, "cannot read {path}: {error}"),
            FileError::Unwritten(path, error) => write!(f, "cannot write {path}: {error}"),
        }
    }
}

// A message on standard error, and the error that ends the program with status 1.
pub fn failed(rt: &HostRuntime, message: impl Display + Drop) -> anyhow::Error {
    let _ = eprintln!(rt; "tiphvanh: {message}");
    anyhow!("failed")
}

// The error that ends the program with status 1, once a refusal has been printed.
pub fn refused(printed: anyhow::Result<()>) -> anyhow::Error {
    match printed {
        Ok(()) => anyhow!("refused"),
        Err(error) => error,
    }
}

// The file, or as many bytes of its beginning as are enough.
pub fn read<'a>(rt: &HostRuntime, path: &'a str, enough: usize) -> Result<Vec<u8>, FileError<'a>> {
    beginning(rt, path, enough).map_err(|error| FileError::Unread(path, error))
}

// There is room from the first for one byte more than is read, so that no longer file makes the room grow; room that is not
// filled is not touched.
fn beginning(rt: &HostRuntime, path: &str, enough: usize) -> io::Result<Vec<u8>> {
    let file = fs::open(rt, path)?;
    let mut bytes = Vec::with_capacity(rt.alloc(), enough.saturating_add(1))?;
    file.take(enough as u64).read_to_end(&mut bytes)?;
    Ok(bytes)
}

// The whole file, however long.
pub fn whole<'a>(rt: &HostRuntime, path: &'a str) -> Result<Vec<u8>, FileError<'a>> {
    fs::read(rt, path).map_err(|error| FileError::Unread(path, error))
}

// The proof at a path, or a message that it cannot be read.
pub fn proof(rt: &HostRuntime, path: &str) -> anyhow::Result<Vec<u8>> {
    read(rt, path, PROOF).map_err(|error| failed(rt, error))
}
