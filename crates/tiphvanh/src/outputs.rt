// Files that are written: made under another name, synced, and then renamed into place, so that a name has all of its old bytes or all of its new ones.
use crate::files::FileError;
use std::fs::File;
use std::io::Write;
use std::{fs, io};

// Whether something has the name already.
pub fn taken(rt: &HostRuntime, path: &str) -> bool {
    fs::symlink_metadata(rt, path).is_ok()
}

// A file that is made under another name, and the path that is its place.
#[derive(Drop)]
pub struct Draft<'a> {
    name: String,
    path: &'a str,
}

impl<'a> Draft<'a> {
    // A draft beside its place. Of one that could not be filled nothing is left.
    pub fn new(rt: &HostRuntime, path: &'a str, bytes: &[u8]) -> Result<Draft<'a>, FileError<'a>> {
        let name = named(rt, path, bytes).map_err(|error| FileError::Unwritten(path, error))?;
        Ok(Draft { name, path })
    }

    // The draft takes its place, or is removed.
    pub fn place(self, rt: &HostRuntime) -> Result<(), FileError<'a>> {
        fs::rename(rt, self.name.as_str(), self.path)
            .inspect_err(|_| remove(rt, self.name.as_str()))
            .map_err(|error| FileError::Unwritten(self.path, error))
    }
}

// The name under which the file was made.
fn named(rt: &HostRuntime, path: &str, bytes: &[u8]) -> io::Result<String> {
    let id = std::process::id(rt.process());
    let name = format!(in rt.alloc(); "{path}.{id}.new")?;
    fill(rt, name.as_str(), bytes).inspect_err(|_| remove(rt, name.as_str()))?;
    Ok(name)
}

fn fill(rt: &HostRuntime, name: &str, bytes: &[u8]) -> io::Result<()> {
    let mut file = File::create_new(rt, name)?;
    file.write_all(bytes)?;
    file.sync_all()
}

// A file that cannot be removed stays.
fn remove(rt: &HostRuntime, name: &str) {
    let _ = fs::remove_file(rt, name);
}

// A whole file in its place.
pub fn put<'a>(rt: &HostRuntime, path: &'a str, bytes: &[u8]) -> Result<(), FileError<'a>> {
    Draft::new(rt, path, bytes)?.place(rt)
}
