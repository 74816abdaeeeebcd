ghost use Rattle.std.specs.Prelude.{◌≡◌, [], ◌∷◌, IfOk, string_bytes};
ghost use Rattle.gp_predict.specs.Due.{words_refused};
ghost use Rattle.gp_predict.specs.Refusal.{limit_refused};
ghost use Rattle.gp_predict.specs.Replaying.{feasible, stuck};

use gp_base::Row;
use gp_replay::Rule;
use std::alloc::{AllocError, Global};

/// A status, and the text that goes with it: its lines, each with its newline.
#[derive(Drop)]
pub struct Reply {
    pub status: u8,
    pub lines: Row<Row<u8>>,
}

/// The answer of a text of one line, which is given with its newline.
pub fn one_line(alloc: Global, status: u8, line: String) -> Result<Reply, AllocError>
    ensures { IfOk result (λ answer. (answer.status ≡ status) × (answer.lines ≡ string_bytes line ∷ [])) }
{
    line_of(alloc, status, line.into_bytes())
}

/// The same, of a line that is given as bytes.
pub fn line_of(alloc: Global, status: u8, line: Vec<u8>) -> Result<Reply, AllocError>
    ensures { IfOk result (λ answer. (answer.status ≡ status) × (answer.lines ≡ line.items ∷ [])) }
{
    let mut lines = Row::new(alloc);
    lines.push(Row::from_vec(line))?;
    Ok(Reply { status, lines })
}

/// The refusal of the words of a command line, with status 2.
pub fn words_refused(alloc: Global) -> Result<Reply, AllocError>
    ensures { IfOk result (λ answer. answer ≡ words_refused) }
{
    one_line(alloc, 2, String::from_str(alloc, "words\n")?)
}

/// The answer to a schedule of so many events that can happen.
pub fn feasible(alloc: Global, count: usize) -> Result<Reply, AllocError>
    ensures { IfOk result (λ answer. answer ≡ feasible count) }
{
    one_line(alloc, 0, format!(in alloc; "feasible {count}\n")?)
}

/// The answer to a schedule whose event at this place is the first that may not happen, by this rule.
pub fn stuck(alloc: Global, place: u64, rule: Rule) -> Result<Reply, AllocError>
    ensures { IfOk result (λ answer. answer ≡ stuck place rule) }
{
    let number = rule.number();
    one_line(alloc, 1, format!(in alloc; "stuck {place} {number}\n")?)
}

/// The refusal of so many questions with this budget each.
pub fn limit_refused(alloc: Global, total: u64, budget: u64) -> Result<Reply, AllocError>
    ensures { IfOk result (λ answer. answer ≡ limit_refused total budget) }
{
    one_line(alloc, 7, format!(in alloc; "limit {total} {budget}\n")?)
}
