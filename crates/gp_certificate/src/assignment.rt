ghost use Rattle.std.specs.Prelude.{◌≡◌, ◌≢◌, ◌+◌, ◌-◌, ◌<◌, ◌≤◌, ◌↔◌, ◌⊎◌, None, Some, [], ◌∷◌, ◌++◌, length, IsTrue, IfOk, OnOk, MatchBool, MatchOption, All, Any, Contains, List, take, slice_set, vec_capacity};
ghost use Rattle.gp_clause.specs.declared.lit.Lit.{Lit};
ghost use Rattle.gp_clause.specs.Clause.{NamesBelow, NamesOnce};
ghost use Rattle.gp_clause.specs.Closure.{IsTrueIn, IsFalseIn};
ghost use Rattle.gp_clause.specs.Lit.{opposite, negations};
ghost use Rattle.gp_certificate.specs.Assignment.{value_of, StandsAs, HasTwo, IsKept};
ghost use Rattle.gp_certificate.specs.Counting.{AreDone, IsExact, HasBegun, IsThrough, Extends, StaysClosing, FindsConflict, GoesOn, LooksAt};

use crate::loaded::Loaded;
use gp_clause::Lit;
use std::alloc::{AllocError, Global};

// How a clause stands under an assignment.
#[derive(Drop)]
pub(crate) enum Standing {
    Open,
    False,
    Due(Lit),
}

// The value of each variable that has one, and the literals that are true in the order in which they became so. The first
// ones were gone through.
#[derive(Drop)]
pub(crate) struct Assignment {
    values: Vec<Option<bool>>,
    trail: Vec<Lit>,
    cursor: usize,
}

impl Assignment {
    // No variable has a value.
    pub(crate) fn new(alloc: Global, variables: usize) -> Result<Assignment, AllocError>
        ensures kept { IfOk result IsKept }
        ensures none { IfOk result (λ made. made.trail.items ≡ []) }
        ensures size { IfOk result (λ made. length made.values.items ≡ variables) }
        ensures cursor { IfOk result (λ made. made.cursor ≡ 0) }
    {
        let mut values = Vec::new(alloc);
        values.resize(variables, None)?;
        let trail = Vec::with_capacity(alloc, variables)?;
        Ok(Assignment {
            values,
            trail,
            cursor: 0,
        })
    }

    // Makes room for so many variables.
    pub(crate) fn reserve(&mut self, variables: usize) -> Result<(), AllocError>
        requires { IsKept self.old }
        ensures kept { IsKept self.new }
        ensures values { self.new.values.items ≡ self.old.values.items }
        ensures trail { self.new.trail.items ≡ self.old.trail.items }
        ensures cursor { self.new.cursor ≡ self.old.cursor }
        ensures room { OnOk result ((variables ≤ vec_capacity self.new.values) × (variables ≤ vec_capacity self.new.trail)) }
        ensures more { vec_capacity self.old.trail ≤ vec_capacity self.new.trail }
    {
        self.trail.reserve(variables)?;
        self.values.reserve(variables)?;
        Ok(())
    }

    // Cuts or fills up the variables to so many, for which there is room. None has a value.
    pub(crate) fn resize(&mut self, variables: usize)
        requires kept { IsKept self.old }
        requires none { self.old.trail.items ≡ [] }
        requires values { variables ≤ vec_capacity self.old.values }
        requires trail { variables ≤ vec_capacity self.old.trail }
        ensures kept { IsKept self.new }
        ensures none { self.new.trail.items ≡ [] }
        ensures size { length self.new.values.items ≡ variables }
        ensures cursor { self.new.cursor ≡ self.old.cursor }
    {
        let _ = self.values.resize(variables, None);
    }

    // The literals that are true.
    pub(crate) fn trail(&self) -> &[Lit]
        ensures { result.now ≡ self.now.trail.items }
    {
        self.trail.as_slice()
    }

    // How many literals of the trail were gone through.
    pub(crate) fn cursor(&self) -> usize
        ensures { result ≡ self.now.cursor }
    {
        self.cursor
    }

    // Makes each of the literals false, until one is true. Tells whether one was.
    pub(crate) fn take(&mut self, lits: &[Lit]) -> bool
        requires kept { IsKept self.old }
        requires within { NamesBelow (length self.old.values.items) lits.now }
        ensures extends { Extends self.old self.new }
        ensures cursor { self.new.cursor ≡ self.old.cursor }
        ensures among { All (λ lit. Contains self.old.trail.items lit ⊎ Contains (negations lits.now) lit) self.new.trail.items }
        ensures gives { MatchBool result (Any (Contains self.new.trail.items) lits.now) (All (Contains self.new.trail.items) (negations lits.now)) }
    {
        for lit in lits {
            if self.is_true(*lit) {
                return true;
            }
            self.make_false(*lit);
        }
        false
    }

    // Makes a literal false that is not true.
    fn make_false(&mut self, lit: Lit)
        requires kept { IsKept self.old }
        requires within { lit.variable < length self.old.values.items }
        requires apart { IsTrueIn (value_of self.old.values.items) lit → ⊥ }
        ensures extends { Extends self.old self.new }
        ensures cursor { self.new.cursor ≡ self.old.cursor }
        ensures falls { Contains self.new.trail.items (opposite lit) }
        ensures among { All (λ one. Contains self.old.trail.items one ⊎ (opposite lit ≡ one)) self.new.trail.items }
    {
        if self.is_unassigned(lit) {
            self.assign(lit.negated());
        }
    }

    // Makes true what unit clauses force, until a clause is false or none is unit. Tells whether a clause is false. Each
    // literal that was gone through lowered the counts of the clauses in which its negation stands.
    pub(crate) fn settle(&mut self, loaded: &mut Loaded) -> bool
        requires kept { IsKept self.old }
        requires within { All (NamesBelow (length self.old.values.items)) loaded.old.clauses }
        requires once { All NamesOnce loaded.old.clauses }
        requires exact { IsExact self.old loaded.old }
        requires begun { HasBegun self.old loaded.old.clauses }
        ensures on { GoesOn self.old self.new loaded.old loaded.new }
        ensures gives { MatchBool result (FindsConflict loaded.old.clauses self.old) (IsThrough self.new loaded.old.clauses) }
    {
        if self.begin(loaded) {
            return true;
        }
        while self.cursor < self.trail.len() {
            if self.fall(loaded) {
                return true;
            }
        }
        false
    }

    // Looks at the clauses of fewer than two literals where nothing was gone through. Tells whether a clause is false.
    fn begin(&mut self, loaded: &Loaded) -> bool
        requires kept { IsKept self.old }
        requires within { All (NamesBelow (length self.old.values.items)) loaded.now.clauses }
        requires exact { IsExact self.old loaded.now }
        requires begun { HasBegun self.old loaded.now.clauses }
        ensures extends { Extends self.old self.new }
        ensures closing { StaysClosing loaded.now.clauses self.old self.new }
        ensures cursor { self.new.cursor ≡ self.old.cursor }
        ensures gives { MatchBool result (FindsConflict loaded.now.clauses self.old) (AreDone (take self.old.cursor self.old.trail.items) self.new.values.items loaded.now.clauses) }
    {
        if self.cursor > 0 {
            return false;
        }
        self.look_all(loaded, loaded.short())
    }

    // Goes through one literal of the trail: lowers the counts of the clauses in which its negation stands, and looks at
    // those that have fewer than two left. Tells whether a clause is false.
    fn fall(&mut self, loaded: &mut Loaded) -> bool
        requires kept { IsKept self.old }
        requires within { All (NamesBelow (length self.old.values.items)) loaded.old.clauses }
        requires more { self.old.cursor < length self.old.trail.items }
        requires exact { IsExact self.old loaded.old }
        requires done { AreDone (take self.old.cursor self.old.trail.items) self.old.values.items loaded.old.clauses }
        ensures on { GoesOn self.old self.new loaded.old loaded.new }
        ensures cursor { self.new.cursor ≡ self.old.cursor + 1 }
        ensures gives { MatchBool result (FindsConflict loaded.old.clauses self.old) (AreDone (take self.new.cursor self.new.trail.items) self.new.values.items loaded.old.clauses) }
    {
        let fallen = self.trail[self.cursor].negated();
        loaded.fall(fallen);
        self.cursor += 1;
        self.look_all(loaded, loaded.row(fallen))
    }

    // Looks at the clauses of some numbers that have fewer than two literals left. Tells whether one is false.
    fn look_all(&mut self, loaded: &Loaded, numbers: &[u32]) -> bool
        requires kept { IsKept self.old }
        requires within { All (NamesBelow (length self.old.values.items)) loaded.now.clauses }
        requires size { length loaded.now.left ≡ length loaded.now.clauses }
        ensures extends { Extends self.old self.new }
        ensures closing { StaysClosing loaded.now.clauses self.old self.new }
        ensures cursor { self.new.cursor ≡ self.old.cursor }
        ensures gives { MatchBool result (FindsConflict loaded.now.clauses self.old) (LooksAt loaded.now self.old self.new numbers.now) }
    {
        for number in numbers {
            if self.look_at(loaded, *number as usize) {
                return true;
            }
        }
        false
    }

    // Looks at a clause where it has fewer than two literals left. Tells whether it is false.
    fn look_at(&mut self, loaded: &Loaded, number: usize) -> bool
        requires kept { IsKept self.old }
        requires within { All (NamesBelow (length self.old.values.items)) loaded.now.clauses }
        requires size { length loaded.now.left ≡ length loaded.now.clauses }
        ensures extends { Extends self.old self.new }
        ensures closing { StaysClosing loaded.now.clauses self.old self.new }
        ensures cursor { self.new.cursor ≡ self.old.cursor }
        ensures gives { MatchBool result (FindsConflict loaded.now.clauses self.old) (LooksAt loaded.now self.old self.new (number ∷ [])) }
    {
        if number >= loaded.len() {
            return false;
        }
        if loaded.left(number) > 1 {
            return false;
        }
        self.look(loaded.clause(number))
    }

    // Makes the literal true that is due in a clause, if one is. Tells whether the clause is false.
    fn look(&mut self, clause: &[Lit]) -> bool
        requires kept { IsKept self.old }
        requires within { NamesBelow (length self.old.values.items) clause.now }
        ensures extends { Extends self.old self.new }
        ensures closing { (clauses : List (List Lit)) → Contains clauses clause.now → StaysClosing clauses self.old self.new }
        ensures cursor { self.new.cursor ≡ self.old.cursor }
        ensures gives { MatchBool result (All (IsFalseIn (value_of self.old.values.items)) clause.now) (Any (IsTrueIn (value_of self.new.values.items)) clause.now ⊎ HasTwo self.old.values.items clause.now) }
    {
        match self.standing(clause) {
            Standing::Open => false,
            Standing::False => true,
            Standing::Due(lit) => {
                self.assign(lit);
                false
            }
        }
    }

    // Raises the counts again that were lowered behind a place of the trail.
    pub(crate) fn raise_to(&mut self, loaded: &mut Loaded, cursor: usize)
        requires kept { IsKept self.old }
        requires before { cursor ≤ self.old.cursor }
        requires exact { IsExact self.old loaded.old }
        ensures cursor { self.new ≡ record self.old { cursor = cursor } }
        ensures same { loaded.new ≡ record loaded.old { left = loaded.new.left } }
        ensures exact { IsExact self.new loaded.new }
    {
        while self.cursor > cursor {
            self.rise(loaded);
        }
    }

    // Raises the counts that the last literal lowered that was gone through.
    fn rise(&mut self, loaded: &mut Loaded)
        requires kept { IsKept self.old }
        requires some { 0 < self.old.cursor }
        requires exact { IsExact self.old loaded.old }
        ensures cursor { self.new ≡ record self.old { cursor = self.old.cursor - 1 } }
        ensures same { loaded.new ≡ record loaded.old { left = loaded.new.left } }
        ensures exact { IsExact self.new loaded.new }
    {
        let last = self.cursor - 1;
        loaded.rise(self.trail[last].negated());
        self.cursor = last;
    }

    // Takes back the literals of the trail but so many first ones.
    pub(crate) fn cut_to(&mut self, count: usize)
        requires { IsKept self.old }
        ensures kept { IsKept self.new }
        ensures trail { self.new.trail.items ≡ take count self.old.trail.items }
        ensures size { length self.new.values.items ≡ length self.old.values.items }
        ensures cursor { self.new.cursor ≡ self.old.cursor }
    {
        while self.trail.len() > count {
            self.take_back();
        }
    }

    // Takes back the last literal of the trail.
    fn take_back(&mut self)
        requires kept { IsKept self.old }
        requires some { 0 < length self.old.trail.items }
        ensures kept { IsKept self.new }
        ensures trail { self.new.trail.items ≡ take (length self.old.trail.items - 1) self.old.trail.items }
        ensures size { length self.new.values.items ≡ length self.old.values.items }
        ensures cursor { self.new.cursor ≡ self.old.cursor }
    {
        let Some(lit) = self.trail.pop() else {
            return;
        };
        self.values[lit.variable as usize] = None;
    }

    // Makes an unassigned literal true.
    fn assign(&mut self, lit: Lit)
        requires kept { IsKept self.old }
        requires within { lit.variable < length self.old.values.items }
        requires unassigned { value_of self.old.values.items lit.variable ≡ None }
        ensures kept { IsKept self.new }
        ensures values { self.new.values.items ≡ slice_set self.old.values.items lit.variable (Some lit.positive) }
        ensures trail { self.new.trail.items ≡ self.old.trail.items ++ lit ∷ [] }
        ensures cursor { self.new.cursor ≡ self.old.cursor }
    {
        self.values[lit.variable as usize] = Some(lit.positive);
        self.trail.push_reserved(lit);
    }

    // How a clause stands.
    fn standing(&self, clause: &[Lit]) -> Standing
        ensures { StandsAs self.now.values.items clause.now result }
    {
        if self.any_true(clause) {
            return Standing::Open;
        }
        let Some(lit) = self.first_unassigned(clause) else {
            return Standing::False;
        };
        if self.other_unassigned(clause, lit) {
            return Standing::Open;
        }
        Standing::Due(lit)
    }

    // Whether some literal is true.
    fn any_true(&self, clause: &[Lit]) -> bool
        ensures { IsTrue result ↔ Any (IsTrueIn (value_of self.now.values.items)) clause.now }
    {
        clause.iter().any(|lit| self.is_true(*lit))
    }

    // The first literal whose variable has no value.
    fn first_unassigned(&self, clause: &[Lit]) -> Option<Lit>
        ensures { MatchOption result (All (λ lit. value_of self.now.values.items lit.variable ≢ None) clause.now) (λ lit. Contains clause.now lit × (value_of self.now.values.items lit.variable ≡ None)) }
    {
        for lit in clause {
            if self.is_unassigned(*lit) {
                return Some(*lit);
            }
        }
        None
    }

    // Whether some literal other than the first has no value.
    fn other_unassigned(&self, clause: &[Lit], first: Lit) -> bool
        ensures { IsTrue result ↔ Any (λ lit. (lit ≢ first) × (value_of self.now.values.items lit.variable ≡ None)) clause.now }
    {
        clause
            .iter()
            .any(|lit| self.is_other_unassigned(*lit, first))
    }

    fn is_other_unassigned(&self, lit: Lit, first: Lit) -> bool
        ensures { IsTrue result ↔ ((lit ≢ first) × (value_of self.now.values.items lit.variable ≡ None)) }
    {
        lit != first && self.is_unassigned(lit)
    }

    fn is_true(&self, lit: Lit) -> bool
        ensures { IsTrue result ↔ IsTrueIn (value_of self.now.values.items) lit }
    {
        match self.value(lit.variable) {
            Some(value) => value == lit.positive,
            None => false,
        }
    }

    fn is_unassigned(&self, lit: Lit) -> bool
        ensures { IsTrue result ↔ (value_of self.now.values.items lit.variable ≡ None) }
    {
        self.value(lit.variable).is_none()
    }

    // The value of a variable, where it has one.
    fn value(&self, variable: u32) -> Option<bool>
        ensures { result ≡ value_of self.now.values.items variable }
    {
        match self.values.get(variable as usize) {
            Some(value) => *value,
            None => None,
        }
    }
}
