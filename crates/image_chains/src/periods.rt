// One chain of a table, by the periods of its tasks.
ghost use Rattle.std.specs.Prelude.{◌≡◌, Err, IfErr, IfOk};
ghost use Rattle.image_chains.specs.Taken.{RightRows, PeriodsTaken};

use table::{Refused, Table};

// Of a table and, by value beside it, the rows of its chains (document 01, Language form for each place): the periods of
// the tasks of chain `chain`, into the first entries that are lent. It gives how many they are. Where the image was refused
// nothing is taken, and its refusal is handed on. The answer is looked at here and not before the rows are handed over: so
// the compiled code copies nothing.
pub(crate) fn periods_of(
    answer: Result<u32, Refused>,
    table: &Table,
    rows: [[u32; 8]; 16],
    chain: u64,
    periods: &mut [u32; 32],
) -> Result<usize, Refused>
    requires { IfOk answer (λ round. RightRows table.now rows) }
    ensures taken { IfOk result (λ count. PeriodsTaken (record { table = table.now; rows = rows }) chain count periods.old
        periods.new) }
    ensures refused { (refused : Refused) → answer ≡ Err refused
        → (result ≡ Err refused) × (periods.new ≡ periods.old) }
    ensures accepted { IfErr result (λ refused. answer ≡ Err refused) }
{
    answer?;
    // Between `usize` and `u64` the library has no `From`.
    if table.chains as u64 <= chain {
        return Ok(0);
    }
    let number = chain as usize;
    let count = table.length[number] as usize;
    // By number and not by `zip`: what the loop keeps is then said of the chain's list alone.
    for (i, task) in rows[number][..count].iter().enumerate() {
        periods[i] = table.period[*task as usize];
    }
    Ok(count)
}
