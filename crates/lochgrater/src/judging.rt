//! `lochgrater judge FILE` and `lochgrater recipe TEXT OUT`.
use crate::failure::{Failure, Fault, InFile};
use crate::input::read_whole;
use crate::output::write_whole;
use recipe::{Lawful, Line, PlacedLines, write_line};
use std::io;

/// Prints a lawful recipe line by line, each with its byte place, and then its count and grams.
pub fn judge<'a>(rt: &HostRuntime, words: &'a [String]) -> Result<(), Failure<'a>> {
    let [name] = words else {
        return Err(Failure::Usage);
    };
    let name = name.as_str();
    let bytes = read_whole(rt, name)?;
    let Lawful { lines, grams } = recipe::judge(bytes.as_slice()).in_file(name)?;
    for placed in PlacedLines::new(bytes.as_slice()) {
        let (place, line) = placed.in_file(name)?;
        println!(rt; "{place} {line}")?;
    }
    println!(rt; "{lines} lines, {grams} g")?;
    Ok(())
}

/// The longest line: a remark's letter, its length and 80 bytes.
const LONGEST_LINE: usize = 82;

/// Makes a recipe's bytes of a plain text, a line each, and writes them if they are lawful.
pub fn make<'a>(rt: &HostRuntime, words: &'a [String]) -> Result<(), Failure<'a>> {
    let [text_name, out_name] = words else {
        return Err(Failure::Usage);
    };
    let name = text_name.as_str();
    let text = String::from_utf8(read_whole(rt, name)?)
        .map_err(|_| io::Error::from(io::ErrorKind::InvalidData))
        .in_file(name)?;
    let mut bytes = Vec::new(rt.alloc());
    for (number, line) in (1usize..).zip(text.as_str().lines()) {
        let mut buffer = [0; LONGEST_LINE];
        let written = line_bytes(line, &mut buffer)
            .ok_or(Fault::Line(number))
            .in_file(name)?;
        bytes.extend_from_slice(written)?;
    }
    recipe::judge(bytes.as_slice()).in_file(name)?;
    write_whole(rt, out_name.as_str(), bytes.as_slice())
}

/// The bytes of the line that a text writes, at the front of a buffer; `None` if it writes none.
fn line_bytes<'a>(text: &str, buffer: &'a mut [u8]) -> Option<&'a [u8]> {
    let line = Line::try_from(text).ok()?;
    let size = write_line(line, buffer).ok()?;
    buffer.get(..size)
}
