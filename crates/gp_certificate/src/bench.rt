ghost use Rattle.std.specs.Prelude.{◌≡◌, ◌≢◌, ℕ, ◌+◌, ◌-◌, ◌*◌, ◌<◌, ◌≤◌, ◌^◌, ◌↔◌, false, [], ◌∷◌, ◌++◌, length, IsTrue, IfOk, OnOk, OnErr, MatchBool, All, take, drop, vec_capacity, List};
ghost use Rattle.gp_clause.specs.declared.lit.Lit.{Lit};
ghost use Rattle.gp_clause.specs.Clause.{NamesBelow, NamesOnce};
ghost use Rattle.gp_clause.specs.Lit.{negations};
ghost use Rattle.gp_clause.specs.Problem.{IsValidKind, IsValidProblem};
ghost use Rattle.gp_certificate.specs.Assignment.{IsKept};
ghost use Rattle.gp_certificate.specs.ClauseList.{joined};
ghost use Rattle.gp_certificate.specs.Counting.{IsExact, Extends};
ghost use Rattle.gp_certificate.specs.Levels.{MayGoOn, IsCarried, IsSettled};
ghost use Rattle.gp_certificate.specs.Named.{NamesOnceWith};
ghost use Rattle.gp_certificate.specs.Places.{AreFixed, KeepsMore};
ghost use Rattle.gp_certificate.specs.Step.{LeadsToConflict, Passes};
ghost use Rattle.gp_certificate.specs.Widening.{KeepsValues, KeepsPlaces, KeepsLoaded, KeepsLists, KeepsLevels, HasRoom};

use crate::assignment::Assignment;
use crate::clause_list::ClauseList;
use crate::level::{Level, is_lost};
use crate::loaded::Loaded;
use crate::places::Places;
use gp_clause::{Kind, Lit, Problem, closure_is_least, names_below};
use std::alloc::{AllocError, Global};
use std::marker::Model;

/// Tells which clauses pass with some clauses that are loaded. The literals of a clause are assumed to be false level by
/// level, and taken back; what was derived for the outer levels stays. The first kinds are those of a problem.
// For each loaded clause it is counted how many of its literals did not fall; a clause is looked at where its count falls to one
// or none. A level that is taken back raises the counts again that it lowered.
#[derive(Drop)]
pub struct Bench {
    kinds: Vec<Kind>,
    lasting: usize,
    assignment: Assignment,
    places: Places,
    loaded: Loaded,
    assumed: ClauseList,
    levels: Vec<Level>,
}

impl Model for Bench {
    ghost use Rattle.std.specs.Prelude.{take};
    ghost use Rattle.gp_certificate.specs.Bench.{BenchForm, IsReady};

    ghost Value = { BenchForm };

    ghost view = { λ b. record { points = b.places.graph.points; edges = b.places.edges; lasting = take b.lasting b.kinds.items; kinds = b.kinds.items; loaded = b.loaded.clauses; assumed = b.assumed.lists } };

    ghost invariant = { IsReady };
}

impl Bench {
    /// The bench of a problem with the locals of a query. Nothing is loaded or assumed.
    pub fn new(alloc: Global, problem: &Problem, locals: &[Kind]) -> Result<Bench, AllocError>
        requires valid { IsValidProblem problem.now }
        requires few { length locals.now < 2 ^ 30 }
        requires locals { All (IsValidKind problem.now.points) locals.now }
        ensures { IfOk result (λ bench. bench ≡ record { points = problem.now.points; edges = problem.now.edges; lasting = problem.now.kinds; kinds = problem.now.kinds ++ locals.now; loaded = []; assumed = [] }) }
    {
        let kinds = kinds_of(alloc, problem.kinds.as_slice(), locals)?;
        match assignment_and_places(alloc, problem, kinds.len()) {
            Ok((assignment, places)) => {
                Bench::of_parts(alloc, kinds, problem.kinds.len(), assignment, places)
            }
            Err(error) => {
                drop(kinds);
                Err(error)
            }
        }
    }

    // The bench of these parts, once there is room in it.
    fn of_parts(
        alloc: Global,
        kinds: Vec<Kind>,
        lasting: usize,
        mut assignment: Assignment,
        mut places: Places,
    ) -> Result<Bench, AllocError>
        requires lasting { (lasting ≤ length kinds.items) × (lasting < 2 ^ 30) }
        requires few { length kinds.items < 2 ^ 31 }
        requires kinds { All (IsValidKind places.graph.points) kinds.items }
        requires kept { IsKept assignment }
        requires size { length assignment.values.items ≡ length kinds.items }
        requires none { assignment.trail.items ≡ [] }
        requires cursor { assignment.cursor ≡ 0 }
        requires fixed { AreFixed places }
        requires bare { places.graph.kept ≡ [] }
        ensures { IfOk result (λ bench. bench ≡ record { points = places.graph.points; edges = places.edges; lasting = take lasting kinds.items; kinds = kinds.items; loaded = []; assumed = [] }) }
    {
        let mut loaded = Loaded::new(alloc);
        let mut assumed = ClauseList::new(alloc);
        let mut levels = Vec::new(alloc);
        match make_room(
            &mut assignment,
            &mut places,
            &mut loaded,
            &mut assumed,
            &mut levels,
            kinds.len(),
        ) {
            Ok(()) => Ok(Bench {
                kinds,
                lasting,
                assignment,
                places,
                loaded,
                assumed,
                levels,
            }),
            Err(error) => {
                drop((assignment, places, loaded, assumed));
                Err(error)
            }
        }
    }

    /// Changes the locals, of which the loaded clauses have none. After want of memory there are none.
    pub fn set_locals(&mut self, locals: &[Kind]) -> Result<(), AllocError>
        requires few { length locals.now < 2 ^ 30 }
        requires locals { All (IsValidKind self.old.points) locals.now }
        requires loaded { All (NamesBelow (length self.old.lasting)) self.old.loaded }
        requires nothing { self.old.assumed ≡ [] }
        ensures ok { OnOk result (self.new ≡ record self.old { kinds = self.old.lasting ++ locals.now }) }
        ensures err { OnErr result (self.new ≡ record self.old { kinds = self.old.lasting }) }
    {
        self.drop_locals();
        self.add_locals(locals)
    }

    // Leaves no locals, of which the loaded clauses have none.
    fn drop_locals(&mut self)
        requires loaded { All (NamesBelow (length self.old.lasting)) self.old.loaded }
        requires nothing { self.old.assumed ≡ [] }
        ensures { self.new ≡ record self.old { kinds = self.old.lasting } }
    {
        self.kinds.truncate(self.lasting);
        self.assignment.resize(self.lasting);
    }

    // Adds locals where there are none. After want of memory there are none.
    fn add_locals(&mut self, locals: &[Kind]) -> Result<(), AllocError>
        requires few { length locals.now < 2 ^ 30 }
        requires locals { All (IsValidKind self.old.points) locals.now }
        requires none { self.old.kinds ≡ self.old.lasting }
        requires nothing { self.old.assumed ≡ [] }
        ensures ok { OnOk result (self.new ≡ record self.old { kinds = self.old.lasting ++ locals.now }) }
        ensures err { OnErr result (self.new ≡ self.old) }
    {
        let count = self.lasting + locals.len();
        make_room(
            &mut self.assignment,
            &mut self.places,
            &mut self.loaded,
            &mut self.assumed,
            &mut self.levels,
            count,
        )?;
        extend_kinds(&mut self.kinds, &mut self.assignment, locals)
    }

    /// Loads one more clause. After want of memory what is loaded is as before.
    pub fn load(&mut self, lits: &[Lit]) -> Result<(), AllocError>
        requires within { NamesBelow (length self.old.kinds) lits.now }
        requires once { NamesOnce lits.now }
        requires nothing { self.old.assumed ≡ [] }
        ensures ok { OnOk result (self.new ≡ record self.old { loaded = self.old.loaded ++ lits.now ∷ [] }) }
        ensures err { OnErr result (self.new ≡ self.old) }
    {
        self.loaded.push(lits)?;
        Ok(())
    }

    /// Unloads all clauses.
    pub fn clear(&mut self)
        requires { self.old.assumed ≡ [] }
        ensures { self.new ≡ record self.old { loaded = [] } }
    {
        self.unload(0);
    }

    /// Unloads all clauses but so many first ones, at the cost of those that go.
    pub fn unload(&mut self, count: usize)
        requires { self.old.assumed ≡ [] }
        ensures { self.new ≡ record self.old { loaded = take count self.old.loaded } }
    {
        self.loaded.truncate(count);
    }

    /// Assumes that some literals are false, on a level of their own. It takes no memory, and costs what it derives; where what
    /// was assumed before is refuted it derives nothing.
    pub fn assume(&mut self, lits: &[Lit])
        requires few { length self.old.assumed ≤ length self.old.kinds }
        requires within { NamesBelow (length self.old.kinds) lits.now }
        requires once { NamesOnceWith self.old.assumed lits.now }
        ensures { self.new ≡ record self.old { assumed = self.old.assumed ++ lits.now ∷ [] } }
    {
        let trail = self.assignment.trail().len();
        let cursor = self.assignment.cursor();
        let bounds = self.places.mark();
        let refutes = go_on(
            &self.kinds,
            &mut self.assignment,
            &mut self.places,
            &mut self.loaded,
            is_lost(&self.levels),
            lits,
        );
        self.assumed.push_reserved(lits);
        self.levels.push_reserved(Level {
            trail,
            cursor,
            bounds,
            refutes,
        });
    }

    /// Takes back the innermost level.
    pub fn retract(&mut self)
        requires { self.old.assumed ≢ [] }
        ensures { self.new ≡ record self.old { assumed = take (length self.old.assumed - 1) self.old.assumed } }
    {
        let Some(level) = self.levels.pop() else {
            return;
        };
        self.assignment.raise_to(&mut self.loaded, level.cursor);
        self.assignment.cut_to(level.trail);
        self.places.undo_to(level.bounds);
        self.assumed.truncate(self.levels.len());
    }

    /// Whether a clause of all literals that are assumed passes with the clauses that are loaded.
    pub fn is_refuted(&self) -> bool
        requires { self.now.assumed ≢ [] }
        ensures { IsTrue result ↔ Passes self.now.edges self.now.kinds self.now.loaded (joined self.now.assumed) }
    {
        closure_is_least();
        is_lost(&self.levels)
    }

    /// Whether a clause with these literals passes with the clauses that are loaded. It takes no memory.
    pub fn passes(&mut self, lits: &[Lit]) -> bool
        requires once { NamesOnce lits.now }
        requires nothing { self.old.assumed ≡ [] }
        ensures passes { IsTrue result ↔ Passes self.old.edges self.old.kinds self.old.loaded lits.now }
        ensures same { self.new ≡ self.old }
    {
        if !names_below(lits, self.kinds.len()) {
            return false;
        }
        self.assume(lits);
        let refuted = self.is_refuted();
        self.retract();
        refuted
    }
}

// The kinds of a problem, then the locals.
fn kinds_of(alloc: Global, lasting: &[Kind], locals: &[Kind]) -> Result<Vec<Kind>, AllocError>
    ensures { IfOk result (λ kinds. kinds.items ≡ lasting.now ++ locals.now) }
{
    let mut kinds = Vec::from_slice(alloc, lasting)?;
    kinds.extend_from_slice(locals)?;
    Ok(kinds)
}

// So many variables without a value, and the places of a problem.
fn assignment_and_places(
    alloc: Global,
    problem: &Problem,
    count: usize,
) -> Result<(Assignment, Places), AllocError>
    requires valid { IsValidProblem problem.now }
    requires few { count < 2 ^ 31 }
    ensures kept { IfOk result (λ made. IsKept made.0) }
    ensures size { IfOk result (λ made. length made.0.values.items ≡ count) }
    ensures none { IfOk result (λ made. made.0.trail.items ≡ []) }
    ensures cursor { IfOk result (λ made. made.0.cursor ≡ 0) }
    ensures fixed { IfOk result (λ made. AreFixed made.1) }
    ensures bare { IfOk result (λ made. made.1.graph.kept ≡ []) }
    ensures points { IfOk result (λ made. made.1.graph.points ≡ problem.now.points) }
    ensures edges { IfOk result (λ made. made.1.edges ≡ problem.now.edges) }
{
    let assignment = Assignment::new(alloc, count)?;
    match Places::new(
        alloc,
        problem.points,
        problem.edges.as_slice(),
        count as u32,
    ) {
        Ok(places) => Ok((assignment, places)),
        Err(error) => {
            drop(assignment);
            Err(error)
        }
    }
}

// Makes literals false and what is derived from them true, and keeps its bounds, unless what was assumed before is refuted
// already. Tells whether it is now.
fn go_on(
    kinds: &[Kind],
    assignment: &mut Assignment,
    places: &mut Places,
    loaded: &mut Loaded,
    lost: bool,
    lits: &[Lit],
) -> bool
    requires kept { IsKept assignment.old }
    requires size { length assignment.old.values.items ≡ length kinds.now }
    requires fixed { AreFixed places.old }
    requires room { length kinds.now ≤ length places.old.graph.kept + places.old.graph.room }
    requires kinds { All (IsValidKind places.old.graph.points) kinds.now }
    requires within { All (NamesBelow (length kinds.now)) loaded.old.clauses }
    requires once { All NamesOnce loaded.old.clauses }
    requires exact { IsExact assignment.old loaded.old }
    requires may { lost ≡ false → MayGoOn places.old.edges places.old.cyclic assignment.old places.old.graph loaded.old.clauses }
    requires names { NamesBelow (length kinds.now) lits.now }
    ensures extends { Extends assignment.old assignment.new }
    ensures exact { IsExact assignment.new loaded.new }
    ensures onward { assignment.old.cursor ≤ assignment.new.cursor }
    ensures loaded { loaded.new ≡ record loaded.old { left = loaded.new.left } }
    ensures places { places.new ≡ record places.old { graph = places.new.graph } }
    ensures graph { KeepsMore places.old.graph places.new.graph }
    ensures gives { (start : List Lit) → NamesOnce (start ++ lits.now)
        → MatchBool lost (LeadsToConflict places.old.edges kinds.now loaded.old.clauses (negations start)) (IsCarried kinds.now loaded.old.clauses (negations start) assignment.old places.old.graph)
        → MatchBool result (LeadsToConflict places.old.edges kinds.now loaded.old.clauses (negations (start ++ lits.now))) (IsSettled places.old.edges kinds.now loaded.old.clauses (negations (start ++ lits.now)) assignment.new places.new.graph) }
{
    if lost {
        return true;
    }
    if places.is_cyclic() {
        return true;
    }
    let from = assignment.trail().len();
    if assignment.take(lits) {
        return true;
    }
    if assignment.settle(loaded) {
        return true;
    }
    places.extend(kinds, &assignment.trail()[from..])
}

// Adds kinds of variables, for which there is room and which have no value. After want of memory there are none more.
fn extend_kinds(
    kinds: &mut Vec<Kind>,
    assignment: &mut Assignment,
    more: &[Kind],
) -> Result<(), AllocError>
    requires kept { IsKept assignment.old }
    requires none { assignment.old.trail.items ≡ [] }
    requires size { length assignment.old.values.items ≡ length kinds.old.items }
    requires values { length kinds.old.items + length more.now ≤ vec_capacity assignment.old.values }
    requires trail { length kinds.old.items + length more.now ≤ vec_capacity assignment.old.trail }
    ensures kept { IsKept assignment.new }
    ensures none { assignment.new.trail.items ≡ [] }
    ensures cursor { assignment.new.cursor ≡ assignment.old.cursor }
    ensures size { length assignment.new.values.items ≡ length kinds.new.items }
    ensures more { length kinds.old.items ≤ length kinds.new.items }
    ensures few { length kinds.new.items ≤ length kinds.old.items + length more.now }
    ensures valid { (points : ℕ) → All (IsValidKind points) kinds.old.items → All (IsValidKind points) more.now → All (IsValidKind points) kinds.new.items }
    ensures ok { OnOk result (kinds.new.items ≡ kinds.old.items ++ more.now) }
    ensures err { OnErr result (kinds.new.items ≡ kinds.old.items) }
{
    kinds.extend_from_slice(more)?;
    assignment.resize(kinds.len());
    Ok(())
}

// Makes room for so many variables, where none has a value.
fn make_room(
    assignment: &mut Assignment,
    places: &mut Places,
    loaded: &mut Loaded,
    assumed: &mut ClauseList,
    levels: &mut Vec<Level>,
    count: usize,
) -> Result<(), AllocError>
    requires kept { IsKept assignment.old }
    requires none { assignment.old.trail.items ≡ [] }
    requires bare { places.old.graph.kept ≡ [] }
    requires few { count < 2 ^ 31 }
    ensures assignment { KeepsValues assignment.old assignment.new }
    ensures places { KeepsPlaces places.old places.new }
    ensures loaded { KeepsLoaded loaded.old loaded.new }
    ensures assumed { KeepsLists assumed.old assumed.new }
    ensures levels { KeepsLevels levels.old levels.new }
    ensures room { OnOk result (HasRoom count assignment.new places.new loaded.new assumed.new levels.new) }
{
    loaded.widen(2 * count)?;
    places.reserve(count as u32)?;
    assignment.reserve(count)?;
    assumed.reserve(count, count + 1)?;
    levels.reserve(count + 1)?;
    Ok(())
}
