// The head: "version 4, cores 4, tasks 6, labels 7, chains 5" (document 01, Table image).
ghost use Rattle.std.specs.Prelude.{◌≡◌};
ghost use Rattle.table.specs.Image.{head_bits, head_fields};
ghost use Rattle.fields.specs.TakenTo.{taken_as};
ghost use Rattle.image_parts.specs.Parts.{head_of};

use crate::Head;
use fields::ranged;
use reader::FieldReader;
use table::{Refusal, Refused};

// The fields of a head, which is the first of an image.
pub fn read_head(image: &[u8]) -> Result<Head, Refused>
    ensures { taken_as head_of head_bits result ≡ head_fields image.now 0 }
{
    let mut reader = FieldReader::new(image, 0);
    let _version = ranged(&mut reader, 4, 1..2, Refusal::Version)?;
    let cores = ranged(&mut reader, 4, 1..9, Refusal::Count)?;
    let tasks = ranged(&mut reader, 6, 1..33, Refusal::Count)?;
    let labels = ranged(&mut reader, 7, 0..65, Refusal::Count)?;
    let chains = ranged(&mut reader, 5, 0..17, Refusal::Count)?;
    Ok(Head {
        cores: cores as usize,
        tasks: tasks as usize,
        labels: labels as usize,
        chains: chains as usize,
    })
}
