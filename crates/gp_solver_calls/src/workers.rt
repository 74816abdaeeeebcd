ghost use Rattle.std.specs.Prelude.{◌≡◌, ◌≤◌, [], IfOk};
ghost use Rattle.gp_workers.specs.Post.{IsPost};
ghost use Rattle.gp_workers.specs.Sharing.{AllShared, WorksAlone};
ghost use Rattle.gp_workers.specs.Work.{CanBeAsked, CanBeCertified, IsWork, certificate_by};

use gp_certificate::{Certificate, Step};
use gp_clause::{Problem, Query};
use gp_derivation::WorkerRecord;
use gp_outside::Gate;
use gp_workers::{Post, WindowWork};
use std::alloc::{AllocError, Global};
use std::sync::Wait;
use std::thread::Threads;

/// As `gp_workers::work_all`.
pub fn work_all<R: Threads + Wait + Sync, G: Gate + Sync>(
    rt: &R,
    alloc: Global,
    problem: &Problem,
    queries: &[Query],
    workers: u32,
    budget: u64,
    gate: &G,
) -> Result<WindowWork, AllocError>
    requires workers { (1 ≤ workers) × (workers ≤ 16) }
    requires asked { CanBeAsked problem.now queries.now budget }
    ensures work { IfOk result (IsWork problem.now queries.now workers budget) }
    ensures alone { workers ≡ 1 → IfOk result WorksAlone }
    ensures shared { 2 ≤ workers → IfOk result (λ work. AllShared problem.now workers work.records work.passes) }
{
    gp_workers::work_all(rt, alloc, problem, queries, workers, budget, gate)
}

/// As `gp_workers::work_in_turn`.
pub fn work_in_turn<R: Wait, G: Gate>(
    rt: &R,
    alloc: Global,
    problem: &Problem,
    queries: &[Query],
    workers: u32,
    budget: u64,
    gate: &G,
    post: Post,
) -> Result<(WindowWork, Post), AllocError>
    requires workers { (1 ≤ workers) × (workers ≤ 16) }
    requires asked { CanBeAsked problem.now queries.now budget }
    requires post { IsPost workers post }
    ensures work { IfOk result (λ made. IsWork problem.now queries.now workers budget made.0) }
    ensures none { IfOk result (λ made. made.0.passes ≡ []) }
    ensures post { IfOk result (λ made. IsPost workers made.1) }
    ensures alone { workers ≡ 1 → IfOk result (λ made. WorksAlone made.0 × (made.1 ≡ post)) }
    ensures shared { 2 ≤ workers → IfOk result (λ made. AllShared problem.now workers made.0.records made.1.passes.items) }
{
    gp_workers::work_in_turn(rt, alloc, problem, queries, workers, budget, gate, post)
}

/// As `gp_workers::work_one`.
pub fn work_one<G: Gate>(
    alloc: Global,
    problem: &Problem,
    queries: &[Query],
    budget: u64,
    gate: &G,
) -> Result<WindowWork, AllocError>
    requires asked { CanBeAsked problem.now queries.now budget }
    ensures work { IfOk result (IsWork problem.now queries.now 1 budget) }
    ensures alone { IfOk result WorksAlone }
{
    gp_workers::work_one(alloc, problem, queries, budget, gate)
}

/// As `gp_workers::certificate_by`.
pub fn certificate_by(
    alloc: Global,
    base_clauses: u32,
    records: &[WorkerRecord],
    worker: u32,
    last: &Step,
) -> Result<Certificate, AllocError>
    requires { CanBeCertified base_clauses records.now worker last.now }
    ensures { IfOk result (λ certificate. certificate ≡ certificate_by base_clauses records.now worker last.now) }
{
    gp_workers::certificate_by(alloc, base_clauses, records, worker, last)
}
