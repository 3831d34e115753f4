// Words of 32 bits stored into lent bytes, most significant byte first (document 01, Copies and frames: "Most significant
// bit first throughout"), as far as the bytes go.
#![tactic(auto)]

ghost use Rattle.std.specs.Prelude.{◌≡◌, ◌+◌, ◌*◌, ◌≤◌, ◌<◌, ◌^◌, set};
ghost use Rattle.std.proofs.lemmas.List.Edits.{sets};
ghost use Rattle.bits.specs.Packing.{bits_of, bytes_of};

// The last 32 bits of a word as four bytes.
fn last_four(word: u64) -> [u8; 4]
    ensures { result ≡ bytes_of 4 (bits_of 32 word) }
{
    ((word % 4294967296) as u32).to_be_bytes()
}

// A byte at a place, if there is one. (By `get_mut` its proof does not close: nothing is said of the bytes at `None`.)
fn store(bytes: &mut [u8], place: usize, byte: u8)
    ensures { bytes.new ≡ set bytes.old place byte }
{
    if place < bytes.len() {
        bytes[place] = byte;
    }
}

// The first `count` bytes of the last 32 bits of `word`, from byte 4 * `at` on, as far as the bytes go.
pub fn store_some(bytes: &mut [u8], at: usize, word: u64, count: usize)
    requires { (at < 2 ^ 62) × (count ≤ 4) }
    ensures { bytes.new ≡ sets bytes.old (4 * at) (bytes_of count (bits_of 32 word)) }
{
    let four = last_four(word);
    for i in 0..count {
        store(bytes, 4 * at + i, four[i]);
    }
}

// All four bytes of the last 32 bits of `word`, in one run where there is room; how many times four bytes are then
// written.
pub fn store_four(bytes: &mut [u8], at: usize, word: u64) -> usize
    ensures { at < 2 ^ 62 → (result ≡ at + 1)
        × (bytes.new ≡ sets bytes.old (4 * at) (bytes_of 4 (bits_of 32 word))) }
{
    if at < bytes.len() / 4 {
        bytes[4 * at..4 * at + 4].copy_from_slice(&last_four(word));
        return at + 1;
    }
    let place = at % 4611686018427387904;
    store_some(bytes, place, word, 4);
    place + 1
}
