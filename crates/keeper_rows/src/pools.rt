//! The pools in the store.

ghost use Rattle.rm_base.specs.Ranges.{is_pool_in_range};

use crate::cells;
use crate::stored_row::StoredRow;
use rm_base::limits::{MEMORY_MOST, SPAN_MOST, THRESHOLD_SECONDS_MOST};
use rm_base::rows::PoolRow;
use rm_base::statement::Level;
use rm_outside::outside::Outside;
use sqlite::types::ValueRef;
use sqlite::{Alter, Error, Row, Statement, Transaction};

/// The RUNTIMEPRIORITY in a cell.
fn level(row: &Row, at: usize) -> Result<Level, Outside> {
    match cells::int(row, at)? {
        0 => Ok(Level::Low),
        1 => Ok(Level::Medium),
        2 => Ok(Level::High),
        _ => Err(Outside::Failed),
    }
}

/// The number that stands for a RUNTIMEPRIORITY.
fn level_number(level: Level) -> i64 {
    match level {
        Level::Low => 0,
        Level::Medium => 1,
        Level::High => 2,
    }
}

impl StoredRow for PoolRow {
    ghost is_in_range = { is_pool_in_range };

    const SELECT: &'static str =
        "SELECT pos, name, memory, max, query_max, parallel, priority, level, threshold_s, queue_ms, planned, concurrency, cap_ms, cascade_to FROM pools ORDER BY pos";

    const INSERT: &'static str =
        "INSERT INTO pools(pos, name, memory, max, query_max, parallel, priority, level, threshold_s, queue_ms, planned, concurrency, cap_ms, cascade_to) VALUES (?1, ?2, ?3, ?4, ?5, ?6, ?7, ?8, ?9, ?10, ?11, ?12, ?13, ?14)";

    fn read(row: &Row) -> Result<PoolRow, Outside> {
        Ok(PoolRow {
            name: cells::name(row, 1)?,
            memory: cells::between(row, 2, 0, MEMORY_MOST)?,
            max: cells::maybe_between(row, 3, 0, MEMORY_MOST)?,
            query_max: cells::maybe_between(row, 4, 0, MEMORY_MOST)?,
            parallel: cells::maybe_concurrency(row, 5)?,
            priority: cells::priority(row, 6)?,
            runtime_priority: level(row, 7)?,
            threshold_s: cells::between(row, 8, 0, u64::from(THRESHOLD_SECONDS_MOST))? as u32,
            queue_ms: cells::maybe_between(row, 9, 0, SPAN_MOST)?,
            planned: cells::maybe_concurrency(row, 10)?,
            concurrency: cells::maybe_concurrency(row, 11)?,
            cap_ms: cells::maybe_between(row, 12, 1, SPAN_MOST)?,
            cascade: cells::maybe_name(row, 13)?,
        })
    }

    fn put<S: Alter>(
        &self,
        place: i64,
        insert: &Statement,
        tx: &mut Transaction<'_, S>,
    ) -> Result<usize, Error> {
        tx.execute_prepared(
            insert,
            &[
                ValueRef::Int(place),
                cells::of_name(&self.name),
                cells::of_number(self.memory),
                cells::of_maybe_number(self.max),
                cells::of_maybe_number(self.query_max),
                cells::of_maybe_count(self.parallel),
                ValueRef::Int(i64::from(self.priority)),
                ValueRef::Int(level_number(self.runtime_priority)),
                ValueRef::Int(i64::from(self.threshold_s)),
                cells::of_maybe_number(self.queue_ms),
                cells::of_maybe_count(self.planned),
                cells::of_maybe_count(self.concurrency),
                cells::of_maybe_number(self.cap_ms),
                cells::of_maybe_name(&self.cascade),
            ],
        )
    }
}
