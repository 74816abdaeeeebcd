// Clauses, and the bounds that kinds of variables set.
use gp_clause::{BadClause, Clause, Edge, Kind, Lit};
use std::alloc::Global;
use std::process::Abort;

const A: Lit = Lit {
    variable: 0,
    positive: true,
};

const NOT_A: Lit = Lit {
    variable: 0,
    positive: false,
};

const B: Lit = Lit {
    variable: 4,
    positive: false,
};

const C: Lit = Lit {
    variable: 7,
    positive: true,
};

// Whether a copy of a clause is like it.
fn is_copied(rt: &impl Abort, clause: &Clause) -> bool {
    let copy = clause.clone().expect(rt, "memory");
    copy.lits() == clause.lits() && copy == *clause
}

fn has_length(clause: &Clause, given: &[Lit]) -> bool {
    clause.len() == given.len() && clause.is_empty() == given.is_empty()
}

// Literals, and those of their clause, sorted, where none of them names the variable of another.
type Row<'a> = (&'a [Lit], Option<&'a [Lit]>);

// Whether a clause is the one of a row.
fn is_due(rt: &impl Abort, clause: Clause, row: &Row) -> bool {
    let (given, want) = *row;
    let whole = Some(clause.lits()) == want && has_length(&clause, given);
    let copied = is_copied(rt, &clause);
    let lits = clause.into_vec();
    whole && copied && Some(lits.as_slice()) == want
}

fn holds(rt: &impl Abort, alloc: Global, row: &Row) -> bool {
    let given = Vec::from_slice(alloc, row.0).expect(rt, "memory");
    match Clause::of(given) {
        Ok(clause) => is_due(rt, clause, row),
        Err(BadClause) => row.1.is_none(),
    }
}

fn all_hold(rt: &impl Abort, alloc: Global, rows: &[Row]) -> bool {
    let mut all = true;
    for row in rows {
        all &= holds(rt, alloc, row);
    }
    all
}

#[test]
fn sorts_literals_and_refuses_a_variable_twice(rt: HostRuntime) {
    const ROWS: [Row; 6] = [
        (&[], Some(&[])),
        (&[B], Some(&[B])),
        (&[C, A, B], Some(&[A, B, C])),
        (&[A, B, A], None),
        (&[A, NOT_A], None),
        (&[C, B, NOT_A, C], None),
    ];
    assert!(rt; all_hold(&rt, rt.alloc(), &ROWS));
}

#[test]
fn bounds_of_literals(rt: HostRuntime) {
    const ORDER: Kind = Kind::Order { a: 2, b: 5 };
    const SPAN: Kind = Kind::Span { a: 2, b: 5, c: 3 };
    const ROWS: [(Kind, bool, Option<Edge>); 6] = [
        (Kind::Free, true, None),
        (Kind::Free, false, None),
        (ORDER, true, Some(Edge { a: 2, b: 5, c: -1 })),
        (ORDER, false, Some(Edge { a: 5, b: 2, c: -1 })),
        (SPAN, true, Some(Edge { a: 2, b: 5, c: 3 })),
        (SPAN, false, Some(Edge { a: 5, b: 2, c: -4 })),
    ];
    for (kind, positive, want) in &ROWS {
        assert!(rt; kind.bound(*positive) == *want, "at {kind:?} {positive}");
    }
}
