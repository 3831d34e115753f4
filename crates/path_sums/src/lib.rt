// What is counted of the basic paths of a chain (document 01, Age of a chain; document 02, C-11).
#![tactic(auto)]

ghost use Rattle.std.specs.Prelude.{◌≡◌, ◌+◌, ◌<◌, ◌≤◌, ◌^◌};
ghost use Rattle.path_sums.specs.Sums.{with_path, moved_to};

// How far a chain was gone along: an instant at which a task of it publishes, the last start that it has published by
// then, and that start's end; and of the basic paths before that start how many there are, the longest length, the worst
// age and the best.
#[derive(Clone, Copy)]
pub struct Walk {
    pub instant: u32,
    pub start: u32,
    pub end: u32,
    pub paths: u32,
    pub longest: u32,
    pub worst: u32,
    pub best: u32,
}

impl Walk {
    // One path more: the start that the walk has come to, where the next start has the end `next`, of a chain with the
    // first period `first` and the last period `last`. Its age goes on from the last task's release to the valve, a period
    // later. The first path's age is the least.
    pub fn with_path(self, first: u32, last: u32, next: u32) -> Walk
        requires { (self.start ≤ self.end) × (self.end ≤ next) × (first + next + last < 2 ^ 32)
            × (self.paths ≤ 1000000) }
        ensures { result ≡ with_path self first last next }
    {
        let released = first + next - self.start;
        let age = released + last;
        Walk {
            paths: self.paths + 1,
            longest: self.longest.max(self.end - self.start),
            worst: self.worst.max(age),
            best: if self.paths == 0 {
                age
            } else {
                self.best.min(age)
            },
            ..self
        }
    }

    // The walk has come to another start, with the same sums.
    pub fn moved_to(self, instant: u32, start: u32, end: u32) -> Walk
        ensures { result ≡ moved_to self instant start end }
    {
        Walk {
            instant,
            start,
            end,
            ..self
        }
    }
}
