// The ages of a chain, by the periods of its tasks: first 12 (document 01, Numbers that say no).
#![tactic(auto)]

ghost use Rattle.std.specs.Prelude.{◌≡◌};
ghost use Rattle.aged_chains.specs.Aged.{said_of_ages};
ghost use Rattle.aged_chains.specs.Parts.{aged_by, RightAsked};

use paths::count_paths;
use table::{Refusal, Refused};
use times::rounds::round_up_to_limit;

// The ages of a chain: the number of its paths, the longest length, the worst age, the best one and their difference.
#[derive(Clone, Copy)]
pub struct Ages {
    pub paths: u32,
    pub longest: u32,
    pub worst: u32,
    pub best: u32,
    pub jitter: u32,
}

// The ages of the chain of these periods; a chain that is not in the table has none, and no ages.
pub fn ages_of(periods: &[u32]) -> Result<Ages, Refused>
    requires { RightAsked periods.now }
    ensures { said_of_ages result ≡ aged_by periods.now }
{
    if periods.is_empty() {
        return Err(Refused {
            refusal: Refusal::Asked,
            place: 0,
        });
    }
    let round = round_up_to_limit(periods);
    let counted = count_paths(periods, round);
    Ok(Ages {
        paths: counted.paths,
        longest: counted.longest,
        worst: counted.worst,
        best: counted.best,
        jitter: counted.worst - counted.best,
    })
}
