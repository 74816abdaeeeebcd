ghost use Rattle.std.specs.Prelude.{◌≡◌};
ghost use Rattle.gp_clause.specs.Lit.{opposite, OppositeMeans};

/// A variable, or its negation. Literals are ordered by variable, and at one variable the negation comes first.
#[derive(Debug, Clone, Copy, PartialEq, Eq, PartialOrd, Ord, Hash)]
pub struct Lit {
    pub variable: u32,
    pub positive: bool,
}

impl Lit {
    pub fn negated(self) -> Lit
        ensures { result ≡ opposite self }
    {
        Lit {
            variable: self.variable,
            positive: !self.positive,
        }
    }
}

/// A law: of a literal and its negation exactly one is true.
pub fn opposite_means()
    ensures { OppositeMeans }
{}
