//! Files that are written whole or not at all.
use crate::failure::{Failure, InFile};
use std::io::Write;
use std::{fs, io};

/// Writes the bytes to a file beside `name` and then gives it that name, so that `name` never holds a part of them.
/// `-` is standard output.
pub fn write_whole<'a>(rt: &HostRuntime, name: &'a str, bytes: &[u8]) -> Result<(), Failure<'a>> {
    write(rt, name, bytes).in_file(name)
}

fn write(rt: &HostRuntime, name: &str, bytes: &[u8]) -> io::Result<()> {
    if name == "-" {
        return rt.stdout().write_all(bytes);
    }
    let part = format!(in rt.alloc(); "{name}.part")?;
    // By hand, since the part is removed before the error goes on.
    if let Err(error) = fs::write(rt, part.as_str(), bytes) {
        let _ = fs::remove_file(rt, part.as_str());
        return Err(error);
    }
    fs::rename(rt, part.as_str(), name)
}
