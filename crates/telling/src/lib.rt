// The words that tell an answer, each after a space, for the program that runs the cases. They go to whatever writer is
// lent, and no contract says what is written.
#![tactic(auto)]

use lines::places::first_from;
use std::io;
use std::io::Write;
use table::Refused;

// The name of a case, as far as its colon, and a colon; the place after it.
pub fn tell_name<W: Write>(out: &mut W, line: &[u8]) -> io::Result<usize> {
    let colon = first_from(line, 0, b':');
    out.write_all(&line[..colon])?;
    out.write_all(b":")?;
    Ok(colon + 1)
}

// The end of a case's line.
pub fn end_line<W: Write>(out: &mut W) -> io::Result<()> {
    out.write_all(b"\n")
}

// What is told of a line that is no case.
pub fn complain<W: Write>(out: &mut W) -> io::Result<()> {
    out.write_all(b" not understood")
}

// A refusal: its number and its place.
pub fn tell_refusal<W: Write>(out: &mut W, refused: Refused) -> io::Result<()> {
    write!(
        out,
        " refused {} {}",
        u32::from(refused.refusal),
        refused.place
    )
}

// Bytes as document 01 writes them.
pub fn tell_bytes<W: Write>(out: &mut W, bytes: &[u8]) -> io::Result<()> {
    for byte in bytes {
        write!(out, " {byte:02x}")?;
    }
    Ok(())
}
