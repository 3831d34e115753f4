// Division by a period, as a product and a shift.
ghost use Rattle.std.specs.Prelude.{◌≡◌, ℕ, ◌*◌, ◌/◌, ◌^◌, ◌<◌, ◌≤◌, length, take, drop, slice_index};
ghost use Rattle.quotients.specs.Paces.{periods_of};

use crate::pace::Pace;

// The quotient of n by the divisor that a factor and a shift stand for.
pub fn quotient(n: u32, factor: u32, shift: u32) -> u32
    requires { (shift ≤ 45) × (n * factor / 2 ^ shift < 2 ^ 32) }
    ensures { result ≡ n * factor / 2 ^ shift }
{
    (u64::from(n) * u64::from(factor) >> shift) as u32
}

impl Pace {
    // The factor is 2^shift divided by the period, and one more: at least 2^25, and below 2^32. Three shifts are enough.
    pub fn of(period: u32) -> Pace
        requires { (0 < period) × (period ≤ 1000000) }
        ensures { result.period ≡ period }
    {
        let shift: u32 = match period {
            ..=64 => 31,
            65..=8192 => 38,
            _ => 45,
        };
        let power = 1u64 << shift;
        Pace {
            period,
            factor: (power / u64::from(period) + 1) as u32,
            shift,
        }
    }

    // The quotient of n by the period.
    pub fn quotient(self, n: u32) -> u32
        requires { n * self.factor / 2 ^ self.shift < 2 ^ 32 }
        ensures product { result ≡ n * self.factor / 2 ^ self.shift }
        ensures quotient { n < 33554432 → result ≡ n / self.period }
    {
        quotient(n, self.factor, self.shift)
    }
}

// The paces of some periods, in the first places of what is lent: once, before there is much to divide.
pub fn paces_of(periods: &[u32], paces: &mut [Pace])
    requires room { length periods.now ≤ length paces.old }
    requires right { (i : ℕ) → i < length periods.now
        → (0 < slice_index periods.now i) × (slice_index periods.now i ≤ 1000000) }
    ensures first { periods_of (take (length periods.now) paces.new) ≡ periods.now }
    ensures others { drop (length periods.now) paces.new ≡ drop (length periods.now) paces.old }
{
    for (i, period) in periods.iter().enumerate() {
        paces[i] = Pace::of(*period);
    }
}
