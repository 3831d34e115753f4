// "Each chain: length 4, then that many task numbers of 5" (document 01, Table image).
#![tactic(auto)]

ghost use Rattle.std.specs.Prelude.{◌≡◌, ◌+◌, ◌*◌, ◌<◌, ◌^◌, min, IfOk};
ghost use Rattle.chain_steps.specs.Linked.{Falling, InEachSearched};
ghost use Rattle.chains.specs.Parts.{ChainTaken, ChainsTaken, lengthened};

use chain_steps::links::Links;
use chain_steps::read_steps;
use fields::ranged;
use reader::FieldReader;
use table::{Refusal, Refused, Table};

mod parts;

use parts::Chain;

// One chain: its length, and then its task numbers.
fn read_chain(
    reader: &mut FieldReader<'_>,
    tasks: u32,
    readers: &[u32; 64],
    links: &Links,
) -> Result<Chain, Refused>
    requires { (reader.old.at < 2 ^ 33) × Falling links.now }
    ensures taken { InEachSearched tasks readers.now links.now
        (λ table. ChainTaken reader.old.image.now reader.old.at table reader.new.at result) }
    ensures on { IfOk result (λ chain. reader.new.at ≡ reader.old.at + 4 + 5 * chain.length) }
    ensures image { reader.new.image ≡ reader.old.image }
{
    let length = ranged(reader, 4, 2..9, Refusal::Chain)?;
    let row = read_steps(reader, tasks, readers, links, length as usize)?;
    Ok(Chain { length, row })
}

// All chains of the table: their lengths go into the first entries of its array and their task numbers into the first
// rows, and what comes after those stays, as do the table's other fields. Of the counts no more is looked at than the
// arrays hold. Where all are taken, the reader stands after them.
pub fn read_chains(
    reader: &mut FieldReader<'_>,
    table: &mut Table,
    rows: &mut [[u32; 8]; 16],
) -> Result<(), Refused>
    requires { (reader.old.at < 2 ^ 32) × (table.old.tasks < 2 ^ 32) }
    ensures taken { ChainsTaken reader.old.image.now reader.old.at table.old
        (min table.old.chains 16) reader.new.at result table.new.length rows.old rows.new }
    ensures rest { table.new ≡ lengthened table.old table.new.length }
    ensures image { reader.new.image ≡ reader.old.image }
{
    let links = Links::of(&table.writer, table.labels.min(64));
    // k is an index of two arrays that are written; two lent iterators side by side are no plainer
    for k in 0..table.chains.min(16) {
        let Chain { length, row } = read_chain(reader, table.tasks as u32, &table.readers, &links)?;
        table.length[k] = length;
        rows[k] = row;
    }
    Ok(())
}
