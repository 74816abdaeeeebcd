ghost use Rattle.std.specs.Prelude.{◌≡◌};
ghost use Rattle.gp_overview.specs.Counting.{no_counts};
ghost use Rattle.gp_overview.specs.Table.{numbers_of};

/// How often a report has which answer.
#[derive(Clone, Copy, PartialEq, Eq)]
pub struct Counts {
    pub found: u64,
    pub impossible: u64,
    pub undecided: u64,
    /// In how many windows there are too many instances.
    pub too_many: u64,
    /// How many windows are too large.
    pub too_large: u64,
}

impl Counts {
    // Nothing is counted.
    pub(crate) fn none() -> Counts
        ensures { result ≡ no_counts }
    {
        Counts {
            found: 0,
            impossible: 0,
            undecided: 0,
            too_many: 0,
            too_large: 0,
        }
    }

    // The numbers of a row, in the order of the columns.
    pub(crate) fn numbers(self) -> [u64; 5]
        ensures { result ≡ numbers_of self }
    {
        [
            self.found,
            self.impossible,
            self.undecided,
            self.too_many,
            self.too_large,
        ]
    }
}
