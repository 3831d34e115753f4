// Releases of one task beside a tick (document 01: "A task with period T is released at 0, T, 2T and so on").
#![tactic(auto)]

ghost use Rattle.std.specs.Prelude.{◌≡◌, ◌<◌, ◌≤◌, ◌+◌, ◌*◌, ◌-◌, ◌^◌, suc};
ghost use Rattle.times.specs.Releases.{is_release, first_from, last_to};

use times::Timing;

// The task is released at tick t. A task of period 0 is released at tick 0 alone.
pub fn is_release(task: Timing, t: u64) -> bool
    ensures { result ≡ is_release task t }
{
    t.is_multiple_of(u64::from(task.period))
}

// The task's first release at or after t, less than 2^32 ticks away.
pub fn first_from(task: Timing, t: u64) -> u64
    requires { t ≤ (2 ^ 32 - 1) * (2 ^ 32 - 1) }
    ensures is { result ≡ first_from task t }
    ensures near { result < t + 2 ^ 32 }
{
    if task.period == 0 {
        return 0;
    }
    let period = u64::from(task.period);
    // The definition's own quotient: `div_ceil` asks for the rest as well, a test and a product more at each point.
    (t + (period - 1)) / period * period
}

// The task's last release at or before t.
pub fn last_to(task: Timing, t: u64) -> u64
    ensures is { result ≡ last_to task t }
    ensures before { result ≤ t }
{
    if task.period == 0 {
        return 0;
    }
    let period = u64::from(task.period);
    t / period * period
}

// The tick after the release before this one; 0 where this is the first.
pub fn after_previous(task: Timing, release: u64) -> u64
    requires { release < 2 ^ 64 - 1 }
    ensures { result ≡ suc release - task.period }
{
    (release + 1).saturating_sub(u64::from(task.period))
}
