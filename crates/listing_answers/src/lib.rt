// The listing that a case asks for, put to the proved libraries, and the answer told to a writer, for the program that runs
// the cases.
#![tactic(auto)]

use std::io;
use std::io::Write;
use telling::{complain, tell_bytes, tell_refusal};

// The listing of a core of an image, where `room` bytes are lent.
pub fn ask_listing<W: Write>(out: &mut W, image: &[u8], core: u32, room: u32) -> io::Result<()> {
    let mut buffer = [0u8; 1024];
    let Some(lent) = buffer.get_mut(..room as usize) else {
        return complain(out);
    };
    match questions::listing(image, u64::from(core), lent) {
        Ok(bytes) => tell_bytes(out, &lent[..bytes]),
        Err(refused) => tell_refusal(out, refused),
    }
}
