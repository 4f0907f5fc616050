//! `lochgrater hash FILE..`: a line for each file, digest, two spaces, name.
use crate::failure::{Failure, InFile};
use crate::input::read_up_to;
use beetle::{DIGEST_BYTES, LONGEST_TEXT};
use photon::TableEngine;
use std::process::ExitCode;

/// Hashes every file. One that cannot be hashed is named on standard error, and the others go on.
pub fn hash_files<'a>(rt: &HostRuntime, names: &'a [String]) -> Result<ExitCode, Failure<'a>> {
    if names.is_empty() {
        return Err(Failure::Usage);
    }
    let mut status = ExitCode::SUCCESS;
    for name in names {
        match hash_file(rt, name.as_str()) {
            Err(failure @ Failure::File { .. }) => {
                eprintln!(rt; "{failure}")?;
                status = ExitCode::FAILURE;
            }
            ended => ended?,
        }
    }
    Ok(status)
}

fn hash_file<'a>(rt: &HostRuntime, name: &'a str) -> Result<(), Failure<'a>> {
    let text = read_up_to(rt, name, LONGEST_TEXT)?;
    let mut digest = [0; DIGEST_BYTES];
    beetle::hash(&TableEngine, text.as_slice(), &mut digest).in_file(name)?;
    let shown = hexadecimal::encode(rt.alloc(), &digest)?;
    println!(rt; "{shown}  {name}")?;
    Ok(())
}
