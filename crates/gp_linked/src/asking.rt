ghost use Rattle.std.specs.Prelude.{◌≡◌, ◌∷◌, [], IfOk, length};
ghost use Rattle.gp_constraint.specs.Extended.{nothing_asked};
ghost use Rattle.gp_workers.specs.Work.{CanBeAsked};
ghost use Rattle.gp_linked.specs.Asked.{IsAsked};

use gp_base::Row;
use gp_clause::{Problem, Query};
use gp_derivation::WorkerRecord;
use gp_outside::FreeGate;
use gp_workers::{WindowWork, WorkAnswer, work_one};
use std::alloc::{AllocError, Global};

// What the one worker answers that is asked alone, and what it did.
#[derive(Drop)]
pub(crate) struct Asked {
    pub(crate) answer: WorkAnswer,
    pub(crate) own: WorkerRecord,
}

// Asks one worker whether a problem has an answer at all.
pub(crate) fn ask(alloc: Global, problem: &Problem, budget: u64) -> Result<Asked, AllocError>
    requires { CanBeAsked problem.now (nothing_asked ∷ []) budget }
    ensures { IfOk result (IsAsked problem.now budget) }
{
    let queries = one_query(alloc)?;
    let work = work_one(alloc, problem, queries.as_slice(), budget, &FreeGate);
    drop(queries);
    let work = work?;
    Ok(only(work))
}

// The query that asks nothing, alone.
fn one_query(alloc: Global) -> Result<Vec<Query>, AllocError>
    ensures { IfOk result (λ queries. queries.items ≡ nothing_asked ∷ []) }
{
    let queries = vec![in alloc; nothing_asked(alloc)]?;
    Ok(queries)
}

fn nothing_asked(alloc: Global) -> Query
    ensures { result ≡ nothing_asked }
{
    Query {
        locals: Row::new(alloc),
        assumed: Row::new(alloc),
    }
}

// The one answer, and the record of the one worker.
fn only(work: WindowWork) -> Asked
    requires answers { length work.answers ≡ 1 }
    requires records { length work.records ≡ 1 }
    ensures answers { work.answers ≡ result.answer ∷ [] }
    ensures records { work.records ≡ result.own ∷ [] }
{
    let WindowWork {
        answers,
        records,
        passes,
    } = work;
    drop(passes);
    Asked {
        answer: only_answer(answers),
        own: only_record(records),
    }
}

fn only_answer(answers: Row<WorkAnswer>) -> WorkAnswer
    requires { length answers ≡ 1 }
    ensures { answers ≡ result ∷ [] }
{
    let mut items = answers.into_vec();
    let Some(answer) = items.pop() else {
        unreachable!()
    };
    answer
}

fn only_record(records: Row<WorkerRecord>) -> WorkerRecord
    requires { length records ≡ 1 }
    ensures { records ≡ result ∷ [] }
{
    let mut items = records.into_vec();
    let Some(own) = items.pop() else {
        unreachable!()
    };
    own
}
