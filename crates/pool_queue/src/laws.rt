//! How numbers of queries stand for waiting queries. The law is the contract of a function that does nothing.
ghost use Rattle.std.specs.Prelude.{◌≡◌, ◌≤◌, ◌==◌, ℕ, true, Some, List, ◌∷◌, ◌++◌, find, count_by};
ghost use Rattle.rm_rules.specs.declared.state.Waiter.{Waiter};
ghost use Rattle.rm_rules.specs.State.{without, without_waiter};
ghost use Rattle.rm_rules.specs.Answers.{queue_place};
ghost use Rattle.pool_queue.specs.Queue.{is_query, has_query, place_of_query};

/// Where no number and no session waits twice, a waiting query is found by its number, and by its number it is taken out
/// and placed as by its session.
pub fn queries_by_number()
    ensures waits { (waiting before rest : List Waiter) (w : Waiter)
        → waiting ≡ before ++ w ∷ rest
        → has_query waiting w.query ≡ true }
    ensures found { (waiting before rest : List Waiter) (w : Waiter)
        → ((query : ℕ) → count_by (is_query query) waiting ≤ 1)
        → waiting ≡ before ++ w ∷ rest
        → find (is_query w.query) waiting ≡ Some w }
    ensures left { (waiting before rest : List Waiter) (w : Waiter)
        → ((query : ℕ) → count_by (is_query query) waiting ≤ 1)
        → ((session : ℕ) → count_by (λ x. x.session == session) waiting ≤ 1)
        → waiting ≡ before ++ w ∷ rest
        → without (is_query w.query) waiting ≡ without_waiter w.session waiting }
    ensures place { (waiting before rest : List Waiter) (w : Waiter)
        → ((query : ℕ) → count_by (is_query query) waiting ≤ 1)
        → ((session : ℕ) → count_by (λ x. x.session == session) waiting ≤ 1)
        → waiting ≡ before ++ w ∷ rest
        → place_of_query waiting w.query ≡ Some (queue_place waiting w.session) }
{}
