//! What the accounts' words say of the bytes of a state. Each law is the contract of a function that does nothing.

ghost use Rattle.std.specs.Prelude.{◌≡◌, ◌≤◌, ◌==◌, ℕ, List, [], ◌∷◌, ◌++◌, Some, find, count_by};
ghost use Rattle.std.specs.List.{list_any};
ghost use Rattle.rm_base.specs.declared.definitions.Definitions.{Definitions};
ghost use Rattle.rm_base.specs.declared.name.Name.{Name};
ghost use Rattle.rm_rules.specs.declared.state.Runner.{Runner};
ghost use Rattle.rm_rules.specs.State.{State, without_runner};
ghost use Rattle.rm_rules.specs.Holdings.{holding, holdings, holdings_of, reserve_names};
ghost use Rattle.rm_rules.specs.Accounting.{account_behind};
ghost use Rattle.rm_rules.specs.Shuffle.{shuffled, shuffled_state};
ghost use Rattle.rm_rules.specs.Sound.{IsSound, has_pool};
ghost use Rattle.rm_rules.specs.Healthy.{AreSized};
ghost use Rattle.accounts.specs.Accounts.{names_in, has_name, has_query, grant_of, account_of, taken, given_back, with_pool};

/// The reserves of a state are of its pools, and go with them.
pub fn pools_agree()
    ensures names { (s : State)
        → AreSized s.definitions s.actual s.counters
        → reserve_names (holdings_of s).reserves ≡ names_in s.definitions }
    ensures known { (s : State) (pool : Name)
        → IsSound s.definitions
        → AreSized s.definitions s.actual s.counters
        → has_name (holdings_of s).reserves pool ≡ has_pool s.definitions pool }
    ensures kept { (s : State) (d : Definitions)
        → AreSized s.definitions s.actual s.counters
        → names_in d ≡ names_in s.definitions
        → holdings_of (record s { definitions = d }) ≡ holdings_of s }
    ensures added { (s : State) (d : Definitions) (pool : Name)
        → AreSized s.definitions s.actual s.counters
        → names_in d ≡ names_in s.definitions ++ pool ∷ []
        → holdings_of (record s { definitions = d; actual = s.actual ++ 0 ∷ [] }) ≡ with_pool (holdings_of s) pool }
    ensures shuffled { (s : State)
        → AreSized s.definitions s.actual s.counters
        → holdings_of (shuffled_state s) ≡ shuffled s.definitions (holdings_of s) }
{}

/// Where no number runs twice, the accounts speak of a running query by its number, and go with it.
pub fn queries_agree()
    ensures runs { (running : List Runner) (query : ℕ) → has_query (holdings running) query ≡ list_any (λ r. r.query == query) running }
    ensures grant { (running before rest : List Runner) (r : Runner)
        → ((query : ℕ) → count_by (λ x. x.query == query) running ≤ 1)
        → running ≡ before ++ r ∷ rest
        → grant_of (holdings running) r.query ≡ r.grant }
    ensures account { (s : State) (before rest : List Runner) (r : Runner)
        → ((query : ℕ) → count_by (λ x. x.query == query) s.running ≤ 1)
        → s.running ≡ before ++ r ∷ rest
        → account_of (holdings_of s) r.query ≡ account_behind (holdings_of s) (holdings before) (holding r) }
    ensures taken { (s : State) (r : Runner) → holdings_of (record s { running = s.running ++ r ∷ [] }) ≡ taken (holdings_of s) r.query r.pool r.grant }
    ensures given_back { (s : State) (session : ℕ) (r : Runner)
        → ((query : ℕ) → count_by (λ x. x.query == query) s.running ≤ 1)
        → find (λ x. x.session == session) s.running ≡ Some r
        → holdings_of (record s { running = without_runner session s.running }) ≡ given_back (holdings_of s) r.query }
{}
