// The labels of a table linked by their writers, so that the search for a step's label meets those of one task only.
ghost use Rattle.std.specs.Prelude.{◌≤◌};
ghost use Rattle.chain_steps.specs.Linked.{Linked, Falling};

// Of each task the last label that it writes, and of each label the one before it that the same task writes, where there
// is one. A label is below 64: a `u8` keeps both arrays small.
#[derive(Clone, Copy)]
pub struct Links {
    pub latest: [Option<u8>; 32],
    pub before: [Option<u8>; 64],
}

impl Links {
    // Label after label: the one before it is the last that its writer was met with, and it is now the last itself. A
    // writer past the 32 tasks is no chain's.
    pub fn of(writer: &[u32; 64], labels: usize) -> Links
        requires { labels ≤ 64 }
        ensures linked { Linked writer.now labels result }
        ensures falling { Falling result }
    {
        let mut links = Links {
            latest: [None; 32],
            before: [None; 64],
        };
        for l in 0..labels {
            let w = writer[l];
            if w < 32 {
                links.before[l] = links.latest[w as usize].replace(l as u8);
            }
        }
        links
    }
}
