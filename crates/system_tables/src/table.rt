//! The names and the columns of the system tables.
ghost use Rattle.std.specs.Prelude.{◌≡◌, map};

use rm_base::name::Name;

/// A system table.
#[derive(Clone, Copy, PartialEq, Eq, Debug)]
pub enum SystemTable {
    /// What each pool was given by its statements.
    Pools,
    /// What each pool has and uses.
    Status,
    /// The running queries, and what they hold.
    Acquisitions,
    /// The waiting queries.
    Queues,
    /// How many queries of each pool ended in its queue.
    Rejections,
    /// The last moves of queries from pool to pool.
    Moves,
    /// The open sessions.
    Sessions,
}

/// All of them.
const TABLES: [SystemTable; 7] = [
    SystemTable::Pools,
    SystemTable::Status,
    SystemTable::Acquisitions,
    SystemTable::Queues,
    SystemTable::Rejections,
    SystemTable::Moves,
    SystemTable::Sessions,
];

impl SystemTable {
    ghost use Rattle.std.specs.Prelude.{◌≡◌, map};
    ghost use Rattle.system_tables.specs.SystemTables.{table_text, table_called, table_columns};

    /// The table of this name.
    pub fn called(name: Name) -> Option<SystemTable>
        ensures { result ≡ table_called name }
    {
        TABLES
            .iter()
            .copied()
            .find(|table| table.text() == name.as_str())
    }

    /// The table's name.
    pub fn text(self) -> &'static str
        ensures { result.now ≡ table_text self }
    {
        match self {
            SystemTable::Pools => "resource_pools",
            SystemTable::Status => "resource_pool_status",
            SystemTable::Acquisitions => "resource_acquisitions",
            SystemTable::Queues => "resource_queues",
            SystemTable::Rejections => "resource_rejections",
            SystemTable::Moves => "resource_pool_move",
            SystemTable::Sessions => "sessions",
        }
    }

    /// The names of its columns.
    pub fn columns(self) -> &'static [&'static str]
        ensures { map (λ c. c.now) result.now ≡ table_columns self }
    {
        match self {
            SystemTable::Pools => &[
                "name",
                "memory_size",
                "max_memory_size",
                "max_query_memory_size",
                "execution_parallelism",
                "priority",
                "runtime_priority",
                "runtime_priority_threshold",
                "queue_timeout",
                "planned_concurrency",
                "max_concurrency",
                "runtime_cap",
                "cascade_to",
            ],
            SystemTable::Status => &[
                "pool_name",
                "memory_size",
                "memory_size_actual",
                "max_memory_size",
                "memory_in_use",
                "memory_borrowed",
                "queueing_threshold",
                "query_budget",
                "running",
                "waiting",
            ],
            SystemTable::Acquisitions => &[
                "session",
                "query",
                "pool_name",
                "memory",
                "own",
                "borrowed",
                "start",
                "moves",
            ],
            SystemTable::Queues => &[
                "place",
                "session",
                "query",
                "pool_name",
                "queued",
                "deadline",
            ],
            SystemTable::Rejections => &["pool_name", "timedout", "toolarge", "cancelled"],
            SystemTable::Moves => &["at", "session", "query", "source", "target", "ran"],
            SystemTable::Sessions => &[
                "session",
                "user_name",
                "pool_name",
                "runtime_cap",
                "condition",
            ],
        }
    }
}
