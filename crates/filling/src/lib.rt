// A lent buffer filled from a reader, for the programs.
#![tactic(auto)]

ghost use Rattle.std.specs.Prelude.{◌≡◌, ◌<◌, ◌≤◌, length, take, IfOk};
ghost use Rattle.std.specs.Io.KnownBytes.{Consumes, IsAtEnd};

use std::io;
use std::io::Read;

// Reads until the buffer is full or the input ends; how many bytes were read. They stand in the buffer from its first one
// on. A read that fails is handed on. The loop counts by hand, since each read chooses how much it gives; `read_to_end`
// wants a heap.
pub fn fill_from<R: Read>(from: &mut R, buffer: &mut [u8]) -> io::Result<usize>
    ensures same_length { length buffer.new ≡ length buffer.old }
    ensures within { IfOk result (λ count. count ≤ length buffer.new) }
    ensures bytes { IfOk result (λ count. Consumes (R.remaining from.old) (R.remaining from.new) (take count buffer.new)) }
    ensures whole { IfOk result (λ count. count < length buffer.new → IsAtEnd (R.remaining from.new)) }
{
    let mut done: usize = 0;
    while done < buffer.len() {
        let count = from.read(&mut buffer[done..])?;
        if count == 0 {
            return Ok(done);
        }
        done += count;
    }
    Ok(done)
}
