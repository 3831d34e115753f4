// The length of a round: the hyperperiod H, "the least common multiple of the periods of all tasks, at most 1,000,000", and
// that of a chain, "the least common multiple of the chain's own periods" (document 01).
ghost use Rattle.std.specs.Prelude.{◌≡◌, min};
ghost use Rattle.times.specs.Hyperperiod.{lcm_of};
ghost use Rattle.times.specs.Rounds.{within_limit, said_of_round};

use crate::divisors::lcm_up_to_limit;

// The least common multiple of periods where it is at most 1,000,000, and 1,000,001 for every larger one. The running value
// stays at 1,000,001 once it is larger, since the least common multiple with a period above 0 only grows, and with a
// period of 0 it is 0: so an `Option` that is left at the first larger one would not do.
pub fn round_up_to_limit(periods: &[u32]) -> u32
    ensures { result ≡ min (lcm_of periods.now) 1000001 }
{
    let mut running = 1;
    for period in periods {
        running = lcm_up_to_limit(running, *period);
    }
    running
}

// The hyperperiod of some periods, whatever they are: nothing where it is above 1,000,000. With a period of 0 among them it
// is 0, which is within the limit; a table has none (document 01: refusal 5).
pub fn hyperperiod(periods: &[u32]) -> Option<u32>
    ensures { said_of_round result ≡ within_limit (lcm_of periods.now) }
{
    let running = round_up_to_limit(periods);
    if running <= 1_000_000 {
        Some(running)
    } else {
        None
    }
}
