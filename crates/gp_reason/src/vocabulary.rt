ghost use Rattle.std.specs.Prelude.{◌≡◌, ◌≤◌, ◌++◌, IfOk, OnOk, length, slice_get};
ghost use Rattle.std.specs.Option.{option_copied};
ghost use Rattle.gp_certificate.specs.Certificate.{clauses_of};
ghost use Rattle.gp_clause.specs.Lit.{negations};
ghost use Rattle.gp_constraint.specs.Base.{base_of};
ghost use Rattle.gp_constraint.specs.PointIds.{id_at};
ghost use Rattle.gp_constraint.specs.Points.{points_of};
ghost use Rattle.gp_constraint.specs.Query.{query_names};
ghost use Rattle.gp_reason.specs.Cycles.{clause_before, hinted, numbered_clauses, order_said, orders_of};
ghost use Rattle.gp_reason.specs.Facts.{fact_of, facts_of};
ghost use Rattle.gp_reason.specs.Families.{family_at};
ghost use Rattle.gp_reason.specs.Reasons.{clause_at};

use crate::fact::{Fact, fact_of};
use crate::families::{family_among, family_sizes};
use gp_base::Row;
use gp_certificate::Step;
use gp_clause::Lit;
use gp_constraint::{BaseFamily, Encoded, Symbol, query_symbols};
use gp_cycle::Order;
use gp_instance::Instance;
use gp_property::Property;
use std::alloc::{AllocError, Global};
use std::marker::Model;

/// By what a certificate is read: the window of its instance, the symbols of its variables, and the steps that hints number.
#[derive(Drop)]
pub(crate) struct Vocabulary<'a> {
    encoded: &'a Encoded,
    names: Row<Symbol>,
    sizes: Row<(BaseFamily, usize)>,
    shared: &'a [Step],
    own: &'a [Step],
}

impl<'a> Model for Vocabulary<'a> {
    ghost use Rattle.std.specs.Prelude.{◌≡◌};
    ghost use Rattle.gp_reason.specs.Cycles.{numbered_clauses};
    ghost use Rattle.gp_reason.specs.Families.{family_sizes};
    ghost use Rattle.gp_reason.specs.Vocabulary.{VocabularyForm};

    ghost Value = { VocabularyForm };

    ghost view = { λ vocabulary. record { window = vocabulary.encoded.now; names = vocabulary.names; clauses = numbered_clauses vocabulary.encoded.now vocabulary.shared.now vocabulary.own.now } };

    ghost invariant = { λ vocabulary. vocabulary.sizes ≡ family_sizes vocabulary.encoded.now };
}

impl<'a> Vocabulary<'a> {
    pub(crate) fn new(
        alloc: Global,
        encoded: &'a Encoded,
        property: &Property,
        instance: &Instance,
        shared: &'a [Step],
        own: &'a [Step],
    ) -> Result<Vocabulary<'a>, AllocError>
        ensures { IfOk result (λ vocabulary. vocabulary ≡ record { window = encoded.now; names = query_names encoded.now property.now instance.now.events; clauses = numbered_clauses encoded.now shared.now own.now }) }
    {
        let names = query_symbols(alloc, encoded, property, instance)?;
        let sizes = family_sizes(alloc, encoded)?;
        Ok(Vocabulary {
            encoded,
            names,
            sizes,
            shared,
            own,
        })
    }

    /// How many clauses the window has.
    pub(crate) fn clause_count(&self) -> usize
        ensures count { result ≡ length (base_of self.now.window).clauses }
        ensures few { result ≤ 500000 }
    {
        self.encoded.problem().clauses.len()
    }

    /// The clause of the window with this number; without a literal where there is none.
    pub(crate) fn clause(&self, number: usize) -> &[Lit]
        ensures { result.now ≡ clause_at self.now.window number }
    {
        match self.encoded.problem().clauses.as_slice().get(number) {
            Some(clause) => clause.lits(),
            None => &[],
        }
    }

    /// The family of the clause of the window with this number, where there is one.
    pub(crate) fn family(&self, number: usize) -> Option<BaseFamily>
        ensures { result ≡ family_at self.now.window number }
    {
        family_among(self.sizes.as_slice(), number)
    }

    /// What each literal says.
    pub(crate) fn facts(&self, alloc: Global, lits: &[Lit]) -> Result<Row<Fact>, AllocError>
        ensures { IfOk result (λ facts. facts ≡ facts_of self.now.window self.now.names lits.now) }
    {
        let mut facts = Row::new(alloc);
        for lit in lits {
            facts.push(self.fact(*lit))?;
        }
        Ok(facts)
    }

    /// What the negation of each literal says.
    pub(crate) fn denied(&self, alloc: Global, lits: &[Lit]) -> Result<Row<Fact>, AllocError>
        ensures { IfOk result (λ facts. facts ≡ facts_of self.now.window self.now.names (negations lits.now)) }
    {
        let mut facts = Row::new(alloc);
        for lit in lits {
            facts.push(self.fact(lit.negated()))?;
        }
        Ok(facts)
    }

    /// The orders that literals say.
    pub(crate) fn orders(&self, alloc: Global, lits: &[Lit]) -> Result<Row<Order>, AllocError>
        ensures { IfOk result (λ orders. orders ≡ orders_of self.now.window self.now.names lits.now) }
    {
        let mut orders = Row::new(alloc);
        for lit in lits {
            push_order(&mut orders, self.fact(*lit))?;
        }
        Ok(orders)
    }

    /// The clauses before that of the step of this number that hints number, the last hint first.
    pub(crate) fn hinted(
        &self,
        alloc: Global,
        number: usize,
        hints: &[u32],
    ) -> Result<Row<Row<Lit>>, AllocError>
        ensures { IfOk result (λ clauses. clauses ≡ hinted self.now.clauses number hints.now) }
    {
        let mut clauses = Row::new(alloc);
        for place in (0..hints.len()).rev() {
            self.push_hinted(alloc, &mut clauses, number, hints[place] as usize)?;
        }
        Ok(clauses)
    }

    fn push_hinted(
        &self,
        alloc: Global,
        clauses: &mut Row<Row<Lit>>,
        number: usize,
        hint: usize,
    ) -> Result<(), AllocError>
        ensures { OnOk result (clauses.new ≡ clauses.old ++ clause_before self.now.clauses number hint) }
    {
        if hint >= number {
            return Ok(());
        }
        match self.numbered(hint) {
            Some(lits) => clauses.push(Row::from_vec(lits.to_vec(alloc)?)),
            None => Ok(()),
        }
    }

    /// The clause of this number, where there is one: of the window, of a shared step, or of one of the certificate's own.
    fn numbered(&self, number: usize) -> Option<&[Lit]>
        ensures { option_copied result ≡ slice_get self.now.clauses number }
    {
        let base = self.encoded.problem().clauses.as_slice();
        match base.get(number) {
            Some(clause) => Some(clause.lits()),
            None => step_clause(self.shared, self.own, number - base.len()),
        }
    }

    fn fact(&self, lit: Lit) -> Fact
        ensures { result ≡ fact_of self.now.names (id_at (points_of self.now.window)) lit }
    {
        fact_of(self.names.as_slice(), self.encoded.points(), lit)
    }
}

/// The clause of the step at this place of two lists, one behind the other.
fn step_clause<'a>(steps: &'a [Step], behind: &'a [Step], place: usize) -> Option<&'a [Lit]>
    ensures { option_copied result ≡ slice_get (clauses_of steps.now ++ clauses_of behind.now) place }
{
    match steps.get(place) {
        Some(step) => Some(step.clause.lits()),
        None => clause_at(behind, place - steps.len()),
    }
}

fn clause_at(steps: &[Step], place: usize) -> Option<&[Lit]>
    ensures { option_copied result ≡ slice_get (clauses_of steps.now) place }
{
    match steps.get(place) {
        Some(step) => Some(step.clause.lits()),
        None => None,
    }
}

/// Adds the order that a fact says, where it says one.
fn push_order(orders: &mut Row<Order>, fact: Fact) -> Result<(), AllocError>
    ensures { OnOk result (orders.new ≡ orders.old ++ order_said fact) }
{
    match fact {
        Fact::Before(one, other) => orders.push(Order { one, other }),
        _ => Ok(()),
    }
}
