ghost use Rattle.std.specs.Prelude.{◌≡◌, ◌+◌, ◌<◌, ◌≤◌, ◌^◌};
ghost use Rattle.type_sizes.specs.UpTo.{Tells};
ghost use Rattle.type_sizes.specs.Measures.{leaf, most};

/// What is counted in types.
#[derive(Clone, Copy, Debug, Drop)]
pub enum Measure {
    Nodes,
    Units,
    Inside,
}

impl Measure {
    /// That of a scalar, a reference, and the end of a tuple.
    pub fn leaf(self) -> u32
        ensures { result ≡ leaf self }
    {
        match self {
            Measure::Nodes => 1,
            Measure::Units => 0,
            Measure::Inside => 0,
        }
    }

    /// Up to which number it is counted.
    pub fn most(self) -> u32
        ensures { result ≡ most self }
    {
        match self {
            Measure::Nodes => 1025,
            Measure::Units => 17,
            Measure::Inside => 10001,
        }
    }
}

/// The sum, up to a bound.
pub fn add(most: u32, a: u32, b: u32) -> u32
    requires a { a ≤ most }
    requires b { b ≤ most }
    requires small { most < 2 ^ 31 }
    ensures { Tells most result (a + b) }
{
    let sum = a + b;
    if most < sum { most } else { sum }
}
