ghost use Rattle.gp_agreement.specs.Agreement.{AnswersAgree};
ghost use Rattle.gp_agreement.specs.Enough.{EnoughDecides};
ghost use Rattle.gp_agreement.specs.Links.{EnoughDecidesLinks, LinkReportsAgree};
ghost use Rattle.gp_agreement.specs.Patterns.{PatternsFollow};
ghost use Rattle.gp_agreement.specs.Questions.{QuestionsAreAlike};
ghost use Rattle.gp_agreement.specs.Runs.{RunsAgree};
ghost use Rattle.gp_agreement.specs.Submitted.{ToldIsAccepted};
ghost use Rattle.gp_agreement.specs.Tasks.{TasksAgree, TasksDecide};
ghost use Rattle.gp_agreement.specs.Written.{WrittenIsHeld};

use gp_acceptance::{answered_is_accepted, resumed_is_accepted};
use gp_analysis::Question;
use gp_checker::checks_are_exact;
use gp_compact::compact_keeps_acceptance;
use gp_patterns::patterns_answered;
use gp_report::reports_read_again;

/// A law: records that answer two questions that are alike never contradict each other, whatever their workers and their
/// budgets.
pub fn answers_agree<Q: Question, R: Question<Shown = Q::Shown>>(question: &Q, alike: &R)
    ensures { AnswersAgree (Q.form question.now) (R.form alike.now) }
{}

/// A law: in records that answer a question no entry is undecided for which the budget is enough.
pub fn enough_decides<Q: Question>(question: &Q)
    ensures { EnoughDecides (Q.form question.now) }
{}

/// A law: each question is alike to itself, and that which goes on from an old report to the one without and to that which goes
/// on from another.
pub fn questions_are_alike()
    ensures { QuestionsAreAlike }
{}

/// A law: two reports of one recording never contradict each other, whatever their workers and their budgets: two of an
/// analysis, two that go on from any old reports, one of each, two of deadlocks, and two with signals.
pub fn tasks_agree()
    ensures { TasksAgree }
{
    questions_are_alike();
    patterns_answered();
}

/// A law: in none of these reports an entry is undecided for which the budget is enough.
pub fn tasks_decide()
    ensures { TasksDecide }
{
    patterns_answered();
}

/// A law: that two reports of an analysis agree, and that a budget that is enough decides in each, follows from the same of the
/// question that they answer.
pub fn patterns_follow()
    ensures { PatternsFollow }
{
    tasks_agree();
    tasks_decide();
}

/// A law: two reports of the links of one recording never contradict each other, whatever their budgets.
pub fn links_agree()
    ensures { LinkReportsAgree }
{}

/// A law: in a report of links none is undecided for which the budget is enough.
pub fn links_decide()
    ensures { EnoughDecidesLinks }
{}

/// A law: what an analysis tells, in either format, the compact form of a report that is accepted, and what goes on from an old
/// report: each is accepted by task check, once its text lies in a file beside its recording and properties.
pub fn told_is_accepted()
    ensures { ToldIsAccepted }
{
    reports_read_again();
    checks_are_exact();
    compact_keeps_acceptance();
    answered_is_accepted();
    resumed_is_accepted();
}

/// A law: what two runs keep never contradicts each other, where both are of one recording and the same properties and of tasks
/// that ask the same, as analyse and resume do: whatever their workers, their budgets and the old reports from which they go on.
pub fn runs_agree()
    ensures { RunsAgree }
{
    questions_are_alike();
    patterns_answered();
    tasks_agree();
    links_agree();
}

/// A law: a folder whose report is written keeps its recording and its properties, and holds beside them what is written.
pub fn written_is_held()
    ensures { WrittenIsHeld }
{}
