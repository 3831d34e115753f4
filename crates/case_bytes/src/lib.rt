// The image of a case: bytes in hexadecimal, each after one space. What it reads: specs/.
#![tactic(auto)]

ghost use Rattle.std.specs.Prelude.{◌≡◌, ◌+◌, ◌*◌, ◌≤◌, length};
ghost use Rattle.lists.specs.Lists.{over};
ghost use Rattle.case_bytes.specs.Images.{byte_at, bytes_from};

use lines::digits::{digit_at, spaced};

// How many bytes were read, and where they end.
#[derive(Drop)]
pub struct Bytes {
    pub count: usize,
    pub end: usize,
}

// A space and two digits after it: a byte; none where something else stands.
fn byte_at(text: &[u8], at: usize) -> Option<u8>
    ensures { result ≡ byte_at text.now at }
{
    if !spaced(text, at) {
        return None;
    }
    let high = digit_at(text, at + 1)?;
    let low = digit_at(text, at + 2)?;
    Some(16 * high + low)
}

// Bytes, each after one space, as many as stand there and as there is room for. The bytes after them keep their values.
pub fn bytes_at(text: &[u8], at: usize, room: &mut [u8]) -> Bytes
    ensures counted { result.count ≡ length (bytes_from text.now (length room.old) at) }
    ensures within { result.count ≤ length room.new }
    ensures ended { result.end ≡ at + 3 * result.count }
    ensures lent { room.new
        ≡ over (bytes_from text.now (length room.old) at) room.old }
{
    let mut end = at;
    for (count, slot) in room.iter_mut().enumerate() {
        let Some(byte) = byte_at(text, end) else {
            return Bytes { count, end };
        };
        *slot = byte;
        end += 3;
    }
    Bytes {
        count: room.len(),
        end,
    }
}
