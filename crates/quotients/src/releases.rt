// A task by its pace: what it takes and when it publishes it.
ghost use Rattle.std.specs.Prelude.{◌≡◌, ◌≤◌, ◌-◌, ◌+◌};
ghost use Rattle.times.specs.Releases.{every, first_from, last_to, job_end};

use crate::pace::Pace;

impl Pace {
    // When the task publishes what stands at t: it takes it at its first release at or after t.
    pub fn published(self, t: u32) -> u32
        requires { t ≤ 32000000 }
        ensures { (result ≡ job_end (every self.period) (first_from (every self.period) t)) × (result ≤ t + 2000000) }
    {
        self.quotient(t + (self.period - 1)) * self.period + self.period
    }

    // The task's last release whose job ends by x.
    pub fn taken_by(self, x: u32) -> u32
        requires { (self.period ≤ x) × (x ≤ 32000000) }
        ensures { result ≡ last_to (every self.period) (x - self.period) }
    {
        self.quotient(x - self.period) * self.period
    }

    // The task's last release at or before t.
    pub fn last_to(self, t: u32) -> u32
        requires { t ≤ 32000000 }
        ensures { result ≡ last_to (every self.period) t }
    {
        self.quotient(t) * self.period
    }
}
