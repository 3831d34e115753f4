// The greatest common divisor, and the least common multiple up to a limit.
ghost use Rattle.std.specs.Prelude.{◌≡◌, min};
ghost use Rattle.times.specs.Hyperperiod.{gcd, lcm};

// The greatest common divisor, by recursion on the falling remainder: of a and 0 it is a, else that of b and a % b.
pub fn gcd(a: u64, b: u64) -> u64
    ensures { result ≡ gcd a b }
{
    if b == 0 { a } else { gcd(b, a % b) }
}

// The same, the larger number first: where a is below b the first remainder would be a itself.
fn common_divisor(a: u64, b: u64) -> u64
    ensures { result ≡ gcd a b }
{
    if a < b { gcd(b, a) } else { gcd(a, b) }
}

// The least common multiple where it is at most 1,000,000; 1,000,001 for every larger one. No product wraps, since
// both numbers are below 2^32.
pub fn lcm_up_to_limit(a: u32, b: u32) -> u32
    ensures { result ≡ min (lcm a b) 1000001 }
{
    if a == 0 {
        return 0;
    }
    let wide = a as u64;
    let multiple = wide / common_divisor(wide, b as u64) * b as u64;
    if multiple <= 1_000_000 {
        multiple as u32
    } else {
        1_000_001
    }
}
