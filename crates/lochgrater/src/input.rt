//! Files as bytes, and standard input under the name `-`.
use crate::failure::{Failure, InFile};
use std::fs::File;
use std::io;
use std::io::Read;

/// The bytes of a file, so that one of more than `longest` bytes is seen to be too long: at most one byte more is read.
pub fn read_up_to<'a>(
    rt: &HostRuntime,
    name: &'a str,
    longest: usize,
) -> Result<Vec<u8>, Failure<'a>> {
    let limit = u64::try_from(longest).unwrap_or(u64::MAX);
    read(rt, name, limit.saturating_add(1)).in_file(name)
}

/// The bytes of a file, however many.
pub fn read_whole<'a>(rt: &HostRuntime, name: &'a str) -> Result<Vec<u8>, Failure<'a>> {
    read(rt, name, u64::MAX).in_file(name)
}

/// At most `limit` bytes of a file.
fn read(rt: &HostRuntime, name: &str, limit: u64) -> io::Result<Vec<u8>> {
    let mut bytes = Vec::new(rt.alloc());
    if name == "-" {
        rt.stdin().take(limit).read_to_end(&mut bytes)?;
    } else {
        File::open(rt, name)?.take(limit).read_to_end(&mut bytes)?;
    }
    Ok(bytes)
}
