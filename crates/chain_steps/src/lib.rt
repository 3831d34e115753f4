// "Each step of a chain needs a label that the earlier task writes and the next one reads": the search over chain steps
// and labels (document 01, Table image).
#![tactic(auto)]

ghost use Rattle.std.specs.Prelude.{◌≡◌, ◌+◌, ◌*◌, ◌<◌, ◌≤◌, ◌^◌, IfOk};
ghost use Rattle.chain_steps.specs.Linked.{Falling, InEachSearched};
ghost use Rattle.chain_steps.specs.Parts.{StepsTaken};

use fields::ranged;
use reader::FieldReader;
use table::{Refusal, Refused, marked};

pub mod links;

use links::Links;

// The task numbers of a chain of this length, with the search for each step's label: a row that holds 0 past them.
pub fn read_steps(
    reader: &mut FieldReader<'_>,
    tasks: u32,
    readers: &[u32; 64],
    links: &Links,
    length: usize,
) -> Result<[u32; 8], Refused>
    requires { (reader.old.at < 2 ^ 34) × (length ≤ 8) × Falling links.now }
    ensures taken { InEachSearched tasks readers.now links.now
        (λ table. StepsTaken reader.old.image.now reader.old.at table length result) }
    ensures on { IfOk result (λ row. reader.new.at ≡ reader.old.at + 5 * length) }
    ensures image { reader.new.image ≡ reader.old.image }
{
    let mut row = [0; 8];
    // document 01 asks for this form: a search over steps and labels, left by a label
    'steps: for j in 0..length {
        let place = reader.place();
        let task = ranged(reader, 5, 0..tasks, Refusal::Chain)?;
        row[j] = task;
        if j == 0 {
            continue 'steps; // the first task ends no step
        }
        // the labels that the earlier task writes, from the last back; the one before is looked up first, so that the compiled
        // code does not wait for the test
        let mut label = links.latest[row[j - 1] as usize];
        while let Some(l) = label {
            label = links.before[usize::from(l)];
            if marked(readers[usize::from(l)], u64::from(task)) {
                continue 'steps;
            }
        }
        return Err(Refused {
            refusal: Refusal::Chain,
            place,
        });
    }
    Ok(row)
}
