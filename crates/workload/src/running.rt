//! The queries of a workload, one after the other.

ghost use Rattle.std.specs.Prelude.{◌≡◌, ◌+◌, ◌*◌, ◌^◌, ◌<◌, ◌≤◌, not, None, IfOk, OnOk, string_bytes};
ghost use Rattle.rm_base.specs.declared.limits.TheConstants.{WORKLOAD_QUERIES_MOST};
ghost use Rattle.rm_base.specs.Select.{select_floor};
ghost use Rattle.options.specs.Within.{IsWorkloadWithin};
ghost use Rattle.query_run.specs.Running.{IsRunnable, run_outcome, tables_called};
ghost use Rattle.workload.specs.Generator.{tables_of};
ghost use Rattle.workload.specs.Pools.{workload_definitions};
ghost use Rattle.workload.specs.Summary.{ending_at, first_failed, grant_at, spills, tallied, text_of};
ghost use Rattle.workload.specs.Tallying.{ended, granted};

use crate::kit::Kit;
use crate::lone::Lone;
use crate::pools::pool_of_query;
use crate::queries::Queries;
use crate::summary::{failed_line, summary_lines};
use crate::tables::tables_of;
use crate::tally::Tally;
use csv_tables::tables::Tables;
use options::workload::WorkloadOptions;
use query_plan::plan::Plan;
use query_run::run::{RunEnd, run};
use rm_outside::clock::Clock;
use rm_outside::memory_watch::MemoryWatch;
use rm_outside::spool::Spool;
use std::alloc::{AllocError, Global};

/// What the queries of a workload are run on.
#[derive(Drop)]
struct Work {
    tables: Tables,
    queries: Queries,
}

/// Runs a plan with its grant, counts its answer, and answers whether it fits the grant.
fn run_counted<P: Spool>(
    alloc: Global,
    plan: &Plan,
    tables: &Tables,
    grant: u64,
    spool: &mut P,
    tally: &mut Tally,
) -> Result<bool, AllocError>
    requires planned { IsRunnable plan.now tables.now }
    requires grant { select_floor plan.now ≤ grant }
    requires few { tally.old.queries < WORKLOAD_QUERIES_MOST }
    ensures tally { OnOk result (tally.new ≡ ended tally.old (run_outcome grant plan.now (tables_called tables.now plan.now.tables))) }
    ensures fits { IfOk result (λ fits. fits ≡ not (spills (run_outcome grant plan.now (tables_called tables.now plan.now.tables)))) }
    ensures spool { spool.new ≡ spool.old }
{
    let mut watch = MemoryWatch::new();
    match run(alloc, plan, tables, grant, spool, &mut watch) {
        RunEnd::Answer(rows) => {
            tally.complete(rows.as_slice());
            Ok(true)
        }
        RunEnd::SumOutOfRange(..) => Ok(true),
        RunEnd::AnswerTooLarge(_) => Ok(true),
        RunEnd::NeedsSpill => Ok(false),
        RunEnd::Stopped(_) => unreachable!(),
        RunEnd::Memory => Err(AllocError),
    }
}

/// Runs the query of a number in its pool, and answers whether it fits its grant.
fn run_query<P: Spool, C: Clock>(
    alloc: Global,
    options: &WorkloadOptions,
    query: u32,
    work: &Work,
    lone: &mut Lone,
    kit: &mut Kit<P, C>,
    tally: &mut Tally,
) -> Result<bool, AllocError>
    requires within { IsWorkloadWithin options.now }
    requires tables { work.now.tables ≡ tables_of options.now.rows options.now.seed }
    requires few { query < WORKLOAD_QUERIES_MOST }
    requires defined { lone.old.definitions ≡ workload_definitions options.now.memory options.now.cores }
    requires rested { lone.old.held ≡ None }
    requires begun { lone.old.begun ≡ query }
    requires completed { tally.old.queries ≤ query }
    requires granted { tally.old.granted ≤ 2 ^ 64 * query }
    ensures tally { OnOk result (tally.new ≡ ended (granted tally.old (grant_at options.now query)) (ending_at options.now query)) }
    ensures fits { IfOk result (λ fits. fits ≡ not (spills (ending_at options.now query))) }
    ensures small { OnOk result (grant_at options.now query < 2 ^ 64) }
    ensures defined { lone.new.definitions ≡ lone.old.definitions }
    ensures rested { OnOk result (lone.new.held ≡ None) }
    ensures begun { OnOk result (lone.new.begun ≡ query + 1) }
    ensures spool { kit.new.spool ≡ kit.old.spool }
{
    let plan = work.queries.plan(query);
    let chosen_at = kit.clock.now();
    let asked_at = kit.clock.now();
    let pool = pool_of_query(query);
    let grant = lone.begin(chosen_at, asked_at, pool, plan.floor());
    tally.grant(grant);
    let fits = run_counted(alloc, plan, &work.tables, grant, &mut kit.spool, tally);
    lone.finish(kit.clock.now());
    fits
}

/// Runs the queries one after the other, up to the first that does not fit its grant, and answers which that is.
fn run_queries<P: Spool, C: Clock>(
    alloc: Global,
    options: &WorkloadOptions,
    work: &Work,
    lone: &mut Lone,
    kit: &mut Kit<P, C>,
    tally: &mut Tally,
) -> Result<Option<u32>, AllocError>
    requires within { IsWorkloadWithin options.now }
    requires tables { work.now.tables ≡ tables_of options.now.rows options.now.seed }
    requires defined { lone.old.definitions ≡ workload_definitions options.now.memory options.now.cores }
    requires rested { lone.old.held ≡ None }
    requires begun { lone.old.begun ≡ 0 }
    requires nothing { tally.old ≡ tallied options.now 0 }
    ensures failed { IfOk result (λ failed. failed ≡ first_failed options.now) }
    ensures tally { IfOk result (λ failed. failed ≡ None → tally.new ≡ tallied options.now options.now.count) }
    ensures defined { lone.new.definitions ≡ lone.old.definitions }
    ensures rested { OnOk result (lone.new.held ≡ None) }
    ensures spool { kit.new.spool ≡ kit.old.spool }
{
    for query in 0..options.count {
        if !run_query(alloc, options, query, work, lone, kit, tally)? {
            return Ok(Some(query));
        }
    }
    Ok(None)
}

/// Runs the queries over a desk of their own, and answers what the workload prints.
fn run_work<P: Spool, C: Clock>(
    alloc: Global,
    options: &WorkloadOptions,
    work: &Work,
    kit: &mut Kit<P, C>,
) -> Result<String, AllocError>
    requires within { IsWorkloadWithin options.now }
    requires tables { work.now.tables ≡ tables_of options.now.rows options.now.seed }
    ensures text { IfOk result (λ text. string_bytes text ≡ text_of options.now) }
    ensures spool { kit.new.spool ≡ kit.old.spool }
{
    let mut lone = Lone::new(alloc, options.memory, options.cores, kit.clock.now())?;
    let mut tally = Tally::new();
    match run_queries(alloc, options, work, &mut lone, kit, &mut tally)? {
        Some(query) => failed_line(alloc, query),
        None => summary_lines(alloc, &tally, lone.free(alloc)?),
    }
}

/// What a workload with these options prints.
pub fn run_workload<P: Spool, C: Clock>(
    alloc: Global,
    options: &WorkloadOptions,
    kit: &mut Kit<P, C>,
) -> Result<String, AllocError>
    requires { IsWorkloadWithin options.now }
    ensures text { IfOk result (λ text. string_bytes text ≡ text_of options.now) }
    ensures spool { kit.new.spool ≡ kit.old.spool }
{
    let tables = tables_of(alloc, options.rows, options.seed)?;
    let queries = Queries::read(alloc, tables.catalog())?;
    run_work(alloc, options, &Work { tables, queries }, kit)
}
