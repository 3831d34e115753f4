// The table and its refusals, as the program holds them (document 01: Table image, Numbers that say no). What each
// stands for, and what an image says of them, is said in specs/; the code that reads an image stands in the crates above.
#![tactic(auto)]

ghost use Rattle.std.specs.Prelude.{◌≡◌, ◌&&◌, eqb};
ghost use Rattle.times.specs.Rounds.{within_limit, said_of_round};
ghost use Rattle.table.specs.Refusals.{number_of};
ghost use Rattle.table.specs.Shown.{nothing};
ghost use Rattle.table.specs.Table.{hyperperiod_of, marks};

use times::rounds;

// Why an image or a question is refused: the thirteen rows of document 01's table. Their numbers: specs/Refusals.antt.
#[derive(Clone, Copy)]
pub enum Refusal {
    Ends = 1,
    Version = 2,
    Count = 3,
    Core = 4,
    Period = 5,
    Writer = 6,
    Reader = 7,
    Chain = 8,
    Fill = 9,
    Hyperperiod = 10,
    Room = 11,
    Asked = 12,
    Unjoined = 13,
}

// A refusal with the bit at which it arose. Each answer is a `Result` with it: of an image `Ok(())` where its table is
// accepted.
#[derive(Clone, Copy)]
pub struct Refused {
    pub refusal: Refusal,
    pub place: usize,
}

// A table: the counts of the head; of each task its core and period; of each label its writer and its readers; of each
// chain its length. Entries past a count are 0. The chains' task numbers stand beside it, as sixteen rows of eight.
#[derive(Clone, Copy)]
pub struct Table {
    pub cores: usize,
    pub tasks: usize,
    pub labels: usize,
    pub chains: usize,
    pub core: [u32; 32],
    pub period: [u32; 32],
    pub writer: [u32; 64],
    pub readers: [u32; 64],
    pub length: [u32; 16],
}

// How many bits the head, a task and a label take: head_bits, task_bits and label_bits of specs/Image.antt.
pub const HEAD_BITS: usize = 26;

pub const TASK_BITS: usize = 23;

pub const LABEL_BITS: usize = 37;

// The number of a refusal in document 01's table.
impl From<Refusal> for u32 {
    ghost from_gives = { λ refusal number. number ≡ number_of refusal };

    fn from(refusal: Refusal) -> u32 {
        refusal as u32
    }
}

impl Table {
    // A table with nothing in it.
    pub fn empty() -> Table
        ensures { result ≡ nothing.table }
    {
        Table {
            cores: 0,
            tasks: 0,
            labels: 0,
            chains: 0,
            core: [0; 32],
            period: [0; 32],
            writer: [0; 64],
            readers: [0; 64],
            length: [0; 16],
        }
    }

    // The hyperperiod H of its tasks, or nothing where it is above the limit.
    pub fn hyperperiod(&self) -> Option<u32>
        ensures { said_of_round result ≡ within_limit (hyperperiod_of self.now) }
    {
        rounds::hyperperiod(&self.period[..self.tasks.min(32)])
    }
}

// Task i is marked in a readers field. No bit of it stands for a task past 31.
pub fn marked(readers: u32, i: u64) -> bool
    ensures { result ≡ marks readers i }
{
    i < 32 && (readers >> (31 - i as u32)) % 2 == 1
}

// A label of this writer and these readers goes from task w to task r.
pub fn goes(writer: u32, readers: u32, w: u64, r: u64) -> bool
    ensures { result ≡ (eqb writer w && marks readers r) }
{
    writer as u64 == w && marked(readers, r)
}
