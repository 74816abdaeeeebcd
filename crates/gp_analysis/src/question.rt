ghost use Rattle.std.specs.Prelude.{◌≡◌, ◌≢◌, Err, IfOk, List, None, Some};
ghost use Rattle.gp_clause.specs.Valuation.{Meets};
ghost use Rattle.gp_window.specs.declared.schedule.EventId.{EventId};
ghost use Rattle.gp_window.specs.WindowForm.{WindowForm};
ghost use Rattle.gp_analysis.specs.Question.{IsLawful, QuestionForm};

use gp_base::Row;
use gp_certificate::Step;
use gp_clause::{Problem, Query, Valuation};
use gp_instance::{Instance, InstancesFault};
use gp_report::AnswerOf;
use gp_text::Name;
use gp_window::Window;
use std::alloc::{AllocError, Global};

/// A window of so many events, of which so many constraints were counted, is too large.
#[derive(Drop)]
pub struct TooLarge {
    pub events: u64,
    pub clauses: u64,
}

/// Why a window is left out: its constraints are too large, by these numbers; or the question is not asked of it.
#[derive(Drop)]
pub enum LeftOut {
    TooLarge(TooLarge),
    Unasked,
}

/// Why a window has no constraints.
#[derive(Drop)]
pub enum EncodeFault {
    LeftOut(LeftOut),
    Memory,
}

/// A question that is asked of each window of a recording. An ask is told by its events.
pub trait Question {
    /// What asks are about, as a property.
    type Subject;

    /// A window with its constraints.
    type Encoded: Drop;

    /// What shows that what is asked is possible, as a schedule.
    type Shown: Drop;

    /// What is asked.
    ghost form: { Self → QuestionForm Self.Subject Self.Shown };

    /// That events are an ask of a subject in a window.
    ghost lists: { Self → WindowForm → Self.Subject → List EventId → Type 0 };

    /// The window whose constraints these are.
    ghost window_in: { Self.Encoded → WindowForm };

    /// The subjects, in order.
    fn subjects(&self) -> &[Self::Subject]
        ensures { result.now ≡ (form self.now).subjects };

    fn name(&self, subject: &Self::Subject) -> Name
        ensures { result ≡ (form self.now).name subject.now };

    /// Whether a window is known to be left out by its number of events, without its constraints.
    fn is_large(&self, window: &Window) -> bool
        ensures { result ≡ (form self.now).is_large window.now };

    /// A window with its constraints, where it is not left out.
    fn encode(&self, alloc: Global, window: Window) -> Result<Self::Encoded, EncodeFault>
        ensures window { IfOk result (λ encoded. window_in encoded ≡ window) }
        ensures fits { IfOk result (λ _. (form self.now).left_out window ≡ None) }
        ensures left { (why : _) → result ≡ Err (EncodeFault.LeftOut why) → (form self.now).left_out window ≡ Some why };

    /// The window whose constraints these are.
    fn window_of<'a>(&self, encoded: &'a Self::Encoded) -> &'a Window
        ensures { result.now ≡ window_in encoded.now };

    fn problem<'a>(&self, encoded: &'a Self::Encoded) -> &'a Problem
        ensures { result.now ≡ (form self.now).problem (window_in encoded.now) };

    /// The steps on which the certificates of the window may rest, from the start.
    fn shared(&self, alloc: Global, encoded: &Self::Encoded) -> Result<Row<Step>, AllocError>
        ensures { IfOk result (λ steps. steps ≡ (form self.now).shared (window_in encoded.now)) };

    /// The asks of the subject of this number, in order.
    fn asks(
        &self,
        alloc: Global,
        window: &Window,
        subject: &Self::Subject,
        number: u32,
    ) -> Result<Row<Instance>, InstancesFault>
        ensures { result ≢ Err InstancesFault.Memory → result ≡ (form self.now).asks window.now subject.now number };

    /// The answer that an ask has already.
    fn given(
        &self,
        alloc: Global,
        encoded: &Self::Encoded,
        subject: &Self::Subject,
        ask: &Instance,
    ) -> Result<Option<AnswerOf<Self::Shown>>, AllocError>
        requires { lists self.now (window_in encoded.now) subject.now ask.now.events }
        ensures { IfOk result (λ given. given ≡ (form self.now).given (window_in encoded.now) subject.now ask.now.events) };

    fn query(
        &self,
        alloc: Global,
        encoded: &Self::Encoded,
        subject: &Self::Subject,
        ask: &Instance,
    ) -> Result<Query, AllocError>
        requires { lists self.now (window_in encoded.now) subject.now ask.now.events }
        ensures { IfOk result (λ query. query ≡ (form self.now).query (window_in encoded.now) subject.now ask.now.events) };

    /// What a valuation of the query of an ask shows.
    fn shown(
        &self,
        alloc: Global,
        encoded: &Self::Encoded,
        subject: &Self::Subject,
        ask: &Instance,
        valuation: &Valuation,
    ) -> Result<Self::Shown, AllocError>
        requires ask { lists self.now (window_in encoded.now) subject.now ask.now.events }
        requires meets { Meets ((form self.now).problem (window_in encoded.now)) ((form self.now).query (window_in encoded.now) subject.now ask.now.events) valuation.now }
        ensures { IfOk result ((form self.now).shows (window_in encoded.now) subject.now ask.now.events) };

    /// A law: what is listed are asks, a query without a valuation means that nothing shows its ask, an answer that is given
    /// holds, problems and queries are valid, the steps that are shared pass, and a window that is large is left out.
    fn laws(&self)
        ensures { IsLawful (form self.now) (lists self.now) };
}
