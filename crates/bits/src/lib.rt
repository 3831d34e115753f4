// Fields of a string of bytes (document 01, Table image): `width` bits from bit `at`, most significant bit first.
#![tactic(auto)]

ghost use Rattle.std.specs.Prelude.{◌≡◌, ◌+◌, ◌-◌, ◌*◌, ◌≤◌, ◌<◌, ◌^◌, min, length};
ghost use Rattle.bits.specs.Bits.{field_at};
ghost use Rattle.bits.specs.Found.{found_at, said_of_found};

// 2 to the power k.
fn power(k: usize) -> u64
    requires { k < 64 }
    ensures { result ≡ 2 ^ k }
{
    1 << k
}

// The number that `count` bytes from byte `from` form, the first the highest.
fn bytes_at(bytes: &[u8], from: usize, count: usize) -> u64
    requires { (from + count ≤ length bytes.now) × (count ≤ 5) }
    ensures { result ≡ field_at bytes.now (8 * from) (8 * count) }
{
    let mut number: u64 = 0;
    for byte in &bytes[from..from + count] {
        number = number * 256 + u64::from(*byte);
    }
    number
}

// The field of `width` bits from bit `at`: its value, or nothing, since the bytes end inside or before it. A field is at
// most 32 bits wide: a greater width is taken for 32.
pub fn field_at(bytes: &[u8], at: usize, width: usize) -> Option<u32>
    ensures { said_of_found at result ≡ found_at bytes.now at (min width 32) }
{
    let wide = width.min(32);
    let from = at / 8;
    let skipped = at % 8;
    let count = (skipped + wide + 7) / 8;
    if bytes.len() < from + count {
        return None;
    }
    let below = 8 * count - skipped - wide;
    let number = bytes_at(bytes, from, count) >> below;
    Some((number % power(wide)) as u32)
}
