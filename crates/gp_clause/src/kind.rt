ghost use Rattle.std.specs.Prelude.{◌≡◌};
ghost use Rattle.gp_clause.specs.Kind.{bound_of};

use crate::edge::Edge;

/// What a variable stands for. An order is true exactly where place `a` is less than place `b`, and a span exactly where
/// place `a` minus place `b` is at most `c`.
#[derive(Debug, Clone, Copy, PartialEq, Eq, Hash)]
pub enum Kind {
    Free,
    Order { a: u32, b: u32 },
    Span { a: u32, b: u32, c: u32 },
}

impl Kind {
    /// What a literal of this kind says of the places, over whole numbers.
    pub fn bound(self, positive: bool) -> Option<Edge>
        ensures { result ≡ bound_of self positive }
    {
        match (self, positive) {
            (Kind::Free, _) => None,
            (Kind::Order { a, b }, true) => Some(Edge { a, b, c: -1 }),
            (Kind::Order { a, b }, false) => Some(Edge { a: b, b: a, c: -1 }),
            (Kind::Span { a, b, c }, true) => Some(Edge {
                a,
                b,
                c: i64::from(c),
            }),
            (Kind::Span { a, b, c }, false) => Some(Edge {
                a: b,
                b: a,
                c: -i64::from(c) - 1,
            }),
        }
    }
}
