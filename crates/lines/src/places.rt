// Where a byte stands in a text.
ghost use Rattle.std.specs.Prelude.{◌≡◌, ◌≢◌, ℕ, ◌<◌, ◌≤◌, length, slice_index};

// The first place, from one place on, where a byte stands; the text's end where it does not.
pub fn first_from(text: &[u8], from: usize, byte: u8) -> usize
    requires { from ≤ length text.now }
    ensures after { from ≤ result }
    ensures inside { result ≤ length text.now }
    ensures there { result < length text.now → slice_index text.now result ≡ byte }
    ensures none_before { (k : ℕ) → from ≤ k → k < result → slice_index text.now k ≢ byte }
{
    match text[from..].iter().position(|b| *b == byte) {
        Some(passed) => from + passed,
        None => text.len(),
    }
}
