ghost use Rattle.std.specs.Prelude.{◌≡◌, ◌++◌, [], ◌∷◌, true, false, length, IfOk, OnOk, flat_map};
ghost use Rattle.gp_reason.specs.Cycles.{cycle_told, forces_nothing};
ghost use Rattle.gp_reason.specs.Draft.{after_step, after_steps, first_draft, place_at};
ghost use Rattle.gp_reason.specs.Marks.{is_marked};
ghost use Rattle.gp_reason.specs.Reasons.{ground_of, grounds_of, step_ground, step_of};

use crate::cycles::{adds_nothing, cycle_told, forced_in};
use crate::marking::is_marked;
use crate::reasons::{Ground, ReasonStep};
use crate::vocabulary::Vocabulary;
use gp_base::Row;
use gp_certificate::Step;
use gp_window::EventId;
use std::alloc::{AllocError, Global};

/// The steps that were told, and for each number of a clause or of a step so far its place among them.
#[derive(Drop)]
pub(crate) struct Draft {
    steps: Row<ReasonStep>,
    places: Row<Option<u64>>,
}

impl Draft {
    /// Nothing is told yet, behind so many clauses of the window.
    pub(crate) fn new(alloc: Global, base: usize) -> Result<Draft, AllocError>
        ensures { IfOk result (λ draft. draft ≡ first_draft base) }
    {
        let mut places = Vec::new(alloc);
        places.resize(base, None)?;
        Ok(Draft {
            steps: Row::new(alloc),
            places: Row::from_vec(places),
        })
    }

    /// Tells the next steps whose numbers are marked.
    pub(crate) fn tell(
        self,
        alloc: Global,
        vocabulary: &Vocabulary,
        marks: &[bool],
        steps: &[Step],
    ) -> Result<Draft, AllocError>
        ensures { IfOk result (λ next. next ≡ after_steps vocabulary.now.window vocabulary.now.names vocabulary.now.clauses marks.now self steps.now) }
    {
        let mut draft = self;
        for step in steps {
            draft = draft.pass(alloc, vocabulary, marks, step)?;
        }
        Ok(draft)
    }

    pub(crate) fn into_steps(self) -> Row<ReasonStep>
        ensures { result ≡ self.steps }
    {
        let Draft { steps, places: _ } = self;
        steps
    }

    /// Goes past the next step.
    fn pass(
        self,
        alloc: Global,
        vocabulary: &Vocabulary,
        marks: &[bool],
        step: &Step,
    ) -> Result<Draft, AllocError>
        ensures { IfOk result (λ next. next ≡ after_step vocabulary.now.window vocabulary.now.names vocabulary.now.clauses (is_marked marks.now (length self.places)) self step.now) }
    {
        if is_marked(marks, self.places.len()) {
            return self.add(alloc, vocabulary, step);
        }
        self.skip()
    }

    fn add(self, alloc: Global, vocabulary: &Vocabulary, step: &Step) -> Result<Draft, AllocError>
        ensures { IfOk result (λ next. next ≡ after_step vocabulary.now.window vocabulary.now.names vocabulary.now.clauses true self step.now) }
    {
        let mut draft = self;
        match draft.put(alloc, vocabulary, step) {
            Ok(()) => Ok(draft),
            Err(error) => {
                drop(draft);
                Err(error)
            }
        }
    }

    /// Puts what the next step says behind the others.
    fn put(&mut self, alloc: Global, vocabulary: &Vocabulary, step: &Step) -> Result<(), AllocError>
        ensures { OnOk result (self.new ≡ after_step vocabulary.now.window vocabulary.now.names vocabulary.now.clauses true self.old step.now) }
    {
        let place = self.steps.len() as u64;
        let told = step_of(alloc, vocabulary, self.places.as_slice(), step)?;
        self.steps.push(told)?;
        self.places.push(Some(place))
    }

    fn skip(self) -> Result<Draft, AllocError>
        ensures { IfOk result (λ next. next ≡ record { steps = self.steps; places = self.places ++ None ∷ [] }) }
    {
        let Draft { steps, mut places } = self;
        places.push(None)?;
        Ok(Draft { steps, places })
    }
}

/// The next step, where the numbers before it have these places.
fn step_of(
    alloc: Global,
    vocabulary: &Vocabulary,
    places: &[Option<u64>],
    step: &Step,
) -> Result<ReasonStep, AllocError>
    ensures { IfOk result (λ told. told ≡ step_of vocabulary.now.window vocabulary.now.names vocabulary.now.clauses (place_at places.now) (length places.now) step.now) }
{
    let says = vocabulary.facts(alloc, step.clause.lits())?;
    let Ok((grounds, cycle)) = basis_of(alloc, vocabulary, places, step) else {
        drop(says);
        return Err(AllocError);
    };
    Ok(ReasonStep {
        number: places.len() as u64,
        says,
        grounds,
        cycle,
    })
}

/// What the next step rests on, and the events of its cycle.
#[tactic(auto, unfolding(crate::specs::Cycles::cycle_told, crate::specs::Cycles::forces_nothing))]
fn basis_of(
    alloc: Global,
    vocabulary: &Vocabulary,
    places: &[Option<u64>],
    step: &Step,
) -> Result<(Row<Ground>, Row<EventId>), AllocError>
    ensures grounds { IfOk result (λ basis. basis.0 ≡ grounds_of vocabulary.now.window vocabulary.now.names (place_at places.now) (forces_nothing vocabulary.now.clauses (length places.now) step.now) step.now.hints) }
    ensures cycle { IfOk result (λ basis. basis.1 ≡ cycle_told vocabulary.now.window vocabulary.now.names vocabulary.now.clauses (length places.now) step.now) }
{
    let lits = forced_in(alloc, vocabulary, places.len(), step)?;
    let nothing = adds_nothing(step, &lits);
    let cycle = cycle_told(alloc, vocabulary, lits)?;
    match grounds_of(alloc, vocabulary, places, nothing, step.hints.as_slice()) {
        Ok(grounds) => Ok((grounds, cycle)),
        Err(error) => {
            drop(cycle);
            Err(error)
        }
    }
}

/// What a step with these hints rests on, whose clauses may force nothing.
fn grounds_of(
    alloc: Global,
    vocabulary: &Vocabulary,
    places: &[Option<u64>],
    nothing: bool,
    hints: &[u32],
) -> Result<Row<Ground>, AllocError>
    ensures { IfOk result (λ grounds. grounds ≡ grounds_of vocabulary.now.window vocabulary.now.names (place_at places.now) nothing hints.now) }
{
    if hints.is_empty() {
        return only(alloc, Ground::Everything);
    }
    if nothing {
        return only(alloc, Ground::ThreadOrder);
    }
    cited(alloc, vocabulary, places, hints)
}

fn only(alloc: Global, ground: Ground) -> Result<Row<Ground>, AllocError>
    ensures { IfOk result (λ grounds. grounds ≡ ground ∷ []) }
{
    let mut grounds = Row::new(alloc);
    grounds.push(ground)?;
    Ok(grounds)
}

fn cited(
    alloc: Global,
    vocabulary: &Vocabulary,
    places: &[Option<u64>],
    hints: &[u32],
) -> Result<Row<Ground>, AllocError>
    ensures { IfOk result (λ grounds. grounds ≡ flat_map (ground_of vocabulary.now.window vocabulary.now.names (place_at places.now)) hints.now) }
{
    let mut grounds = Row::new(alloc);
    for hint in hints {
        push_ground(alloc, &mut grounds, vocabulary, places, *hint)?;
    }
    Ok(grounds)
}

/// Adds what a hint cites, where it cites something.
fn push_ground(
    alloc: Global,
    grounds: &mut Row<Ground>,
    vocabulary: &Vocabulary,
    places: &[Option<u64>],
    hint: u32,
) -> Result<(), AllocError>
    ensures { OnOk result (grounds.new ≡ grounds.old ++ ground_of vocabulary.now.window vocabulary.now.names (place_at places.now) hint) }
{
    let number = hint as usize;
    match vocabulary.family(number) {
        Some(family) => {
            let facts = vocabulary.facts(alloc, vocabulary.clause(number))?;
            grounds.push(Ground::Base(family, facts))
        }
        None => push_step(grounds, place_at(places, number)),
    }
}

fn push_step(grounds: &mut Row<Ground>, place: Option<u64>) -> Result<(), AllocError>
    ensures { OnOk result (grounds.new ≡ grounds.old ++ step_ground place) }
{
    match place {
        Some(place) => grounds.push(Ground::Earlier(place)),
        None => Ok(()),
    }
}

fn place_at(places: &[Option<u64>], number: usize) -> Option<u64>
    ensures { result ≡ place_at places.now number }
{
    match places.get(number) {
        Some(place) => *place,
        None => None,
    }
}
