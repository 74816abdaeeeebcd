ghost use Rattle.std.specs.Prelude.{◌≡◌, true};
ghost use Rattle.gp_report.specs.Reading.{Gives, read_lits, read_step, read_steps, rises};

use crate::fault::{ReportFault, ReportRule};
use crate::reading::cursor::ReportLines;
use crate::reading::lists::read_list;
use crate::reading::numbers::told_two_numbers;
use gp_base::Row;
use gp_certificate::Step;
use gp_clause::{Clause, Lit};
use std::alloc::Global;

// Reads so many steps.
pub(super) fn read_steps(
    alloc: Global,
    end: u32,
    count: u64,
    lines: &mut ReportLines,
) -> Result<Row<Step>, ReportFault>
    ensures { Gives result lines.new (read_steps end count lines.old) }
{
    let mut steps = Row::new(alloc);
    for _ in 0..count {
        let step = read_step(alloc, end, lines)?;
        steps.push(step)?;
    }
    Ok(steps)
}

#[tactic(auto, unfolding(crate::specs::Reading::read_step))]
fn read_step(alloc: Global, end: u32, lines: &mut ReportLines) -> Result<Step, ReportFault>
    ensures { Gives result lines.new (read_step end lines.old) }
{
    let line = lines.take(end)?;
    let number = line.number();
    let (lits, hints) = told_two_numbers(b"step", line)?;
    let clause = read_clause(alloc, end, number, lits, lines)?;
    let (hints, _) = read_list::<u32>(alloc, end, number, hints, lines)?;
    Ok(Step { clause, hints })
}

// Reads the literals of a step whose line has this number.
#[tactic(auto, unfolding(crate::specs::Reading::read_lits))]
fn read_clause(
    alloc: Global,
    end: u32,
    number: u32,
    count: u64,
    lines: &mut ReportLines,
) -> Result<Clause, ReportFault>
    ensures { Gives result lines.new (read_lits end number count lines.old) }
{
    let (lits, last) = read_list::<Lit>(alloc, end, number, count, lines)?;
    if !rises(lits.as_slice()) {
        return Err(ReportFault::Rule {
            line: last,
            rule: ReportRule::Clause,
        });
    }
    Ok(clause_of(lits.into_vec()))
}

fn rises(lits: &[Lit]) -> bool
    ensures { result ≡ rises lits.now }
{
    lits.is_sorted_by(|lit, next| lit.variable < next.variable)
}

// The clause of literals that the test finds rising.
fn clause_of(lits: Vec<Lit>) -> Clause
    requires { rises lits.items ≡ true }
    ensures { result ≡ lits.items }
{
    Clause::of_rising(lits)
}
