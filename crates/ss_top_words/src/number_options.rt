// The options that have a number.
ghost use Rattle.std.specs.Prelude.{◌≡◌};
ghost use Rattle.ss_top_words.specs.Words as meaning;

// An option that has a number.
#[derive(Clone, Copy, Debug, PartialEq, Eq)]
pub enum NumberOption {
    Steps,
    Rounds,
    Splits,
    Instances,
}

impl NumberOption {
    // The option of this name.
    pub fn named(name: &str) -> Option<Self>
        ensures { result ≡ meaning.option_named name.now }
    {
        match name {
            "--steps" => Some(NumberOption::Steps),
            "--rounds" => Some(NumberOption::Rounds),
            "--splits" => Some(NumberOption::Splits),
            "--instances" => Some(NumberOption::Instances),
            _ => None,
        }
    }

    // The greatest number that it may have.
    pub fn most(self) -> u32
        ensures { result ≡ meaning.most_of self }
    {
        match self {
            NumberOption::Steps => 1_000_000_000,
            NumberOption::Rounds => 4,
            NumberOption::Splits => 1_000_000_000,
            NumberOption::Instances => 1_000_000,
        }
    }
}
