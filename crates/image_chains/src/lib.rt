// One chain of an image, read by the periods of its tasks.
#![tactic(auto)]

ghost use Rattle.image_chains.specs.PeriodsShown.{PeriodsShown};

mod periods;

use images::wholes::read_into;
use periods::periods_of;
use table::{Refused, Table};

// The periods of the tasks of chain `chain`, in the chain's order, into the first entries that are lent; the answer is how
// many tasks the chain has, and none where it is not in the table. The entries after them keep their values, and after a
// refusal all do.
pub fn read_periods(image: &[u8], chain: u64, periods: &mut [u32; 32]) -> Result<usize, Refused>
    ensures { PeriodsShown image.now chain result periods.old periods.new }
{
    let mut table = Table::empty();
    let mut rows = [[0; 8]; 16];
    let answer = read_into(image, &mut table, &mut rows);
    periods_of(answer, &table, rows, chain, periods)
}
