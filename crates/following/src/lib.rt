// A chain followed forwards and backwards, by the paces of its tasks (document 01, Age of a chain), from four instants at
// once. What is followed is the instant at which a task publishes; of the last task that is one period after the end of
// the path.
#![tactic(auto)]

ghost use Rattle.std.specs.Prelude.{◌≡◌, ◌≤◌, ◌<◌, ◌+◌, ◌*◌, ◌-◌, length, map};
ghost use Rattle.std.specs.List.{All};
ghost use Rattle.quotients.specs.Paces.{periods_of, tasks_of};
ghost use Rattle.following.specs.Following.{passed, last_start, end_from};
ghost use Rattle.following.specs.Following.{PublishedAt, PassesOn};

mod four;

use four::each;
use quotients::Pace;

// The instants at which the last of these tasks publishes what stands at each of four instants.
pub fn passed_on(paces: &[Pace], t: [u32; 4]) -> [u32; 4]
    requires { All (λ t. t + 2000000 * length paces.now ≤ 32000000) t }
    ensures { result ≡ map (λ t. passed (tasks_of paces.now) t) t }
{
    let mut instants = t;
    // In two steps, here and below: straight into `instants` the result is not covered by generated proofs.
    for pace in paces {
        let published = each(instants, |t| pace.published(t));
        instants = published;
    }
    instants
}

// The ends that are reached from instants at which task number `at` publishes.
pub fn end_from(paces: &[Pace], at: usize, x: [u32; 4]) -> [u32; 4]
    requires { All (λ x. PassesOn (periods_of paces.now) at (length paces.now) x) x }
    ensures { result ≡ map (λ x. end_from (periods_of paces.now) at (length paces.now) x) x }
{
    let last = paces[paces.len() - 1].period;
    let passed = passed_on(&paces[at + 1..], x);
    each(passed, |x| x - last)
}

// The last starts that task number `at` publishes by instants at which it publishes. Its own releases are known: no
// division is needed for them.
pub fn last_start(paces: &[Pace], at: usize, x: [u32; 4]) -> [u32; 4]
    requires { All (λ x. PublishedAt (periods_of paces.now) at x × (x ≤ 32000000)) x }
    ensures { result ≡ map (λ x. last_start (periods_of paces.now) at x) x }
{
    if at == 0 {
        return x;
    }
    let own = paces[at].period;
    let mut instants = each(x, |x| x - own);
    for pace in paces[1..at].iter().rev() {
        let taken = each(instants, |x| pace.taken_by(x));
        instants = taken;
    }
    let first = paces[0];
    each(instants, |t| first.last_to(t))
}
