// A period, with what stands for dividing by it. This file imports no definition that names `Pace`.
ghost use Rattle.std.specs.Prelude.{◌≤◌};
ghost use Rattle.quotients.specs.Inverses.{InverseOf};

// A task's period, and the factor and the shift that divide by it.
#[derive(Clone, Copy)]
pub struct Pace {
    pub period: u32,
    pub factor: u32,
    pub shift: u32,
    pub ghost divides: { InverseOf period factor shift },
    pub ghost within: { period ≤ 1000000 },
}
