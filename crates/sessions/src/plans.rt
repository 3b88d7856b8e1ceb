//! The plans that a script keeps for its sessions.

ghost use Rattle.std.specs.Prelude.{◌≡◌, ◌==◌};
ghost use Rattle.std.specs.List.{list_any};
ghost use Rattle.sessions.specs.declared.plans.KeptPlan.{KeptPlan};

use query_plan::plan::Plan;
use std::alloc::{AllocError, Global};
use std::marker::Model;

/// A plan, and the number of the session for which it is kept.
#[derive(Drop)]
pub struct KeptPlan {
    pub session: u32,
    pub plan: Plan,
}

/// The plans of queries that wait or run, one for a session at most.
#[derive(Drop)]
pub struct Plans {
    plans: Vec<KeptPlan>,
}

impl Model for Plans {
    ghost use Rattle.std.specs.Prelude.{List};
    ghost use Rattle.sessions.specs.declared.plans.KeptPlan.{KeptPlan};

    ghost Value = { List KeptPlan };

    ghost view = { λ p. p.plans.items };
}

impl Plans {
    ghost use Rattle.std.specs.Prelude.{◌≡◌, ◌==◌, ◌<◌, [], length, position, is_some, OnOk, OnErr, IfSome};
    ghost use Rattle.sessions.specs.declared.plans.KeptPlan.{KeptPlan};
    ghost use Rattle.sessions.specs.Plans.{plan_of, with_plan, without_plan};

    /// No plans. It takes no memory.
    pub fn new(alloc: Global) -> Plans
        ensures { result ≡ [] }
    {
        Plans {
            plans: Vec::new(alloc),
        }
    }

    /// Keeps a plan for a session, in place of the one before, which is gone in any case.
    pub fn keep(&mut self, session: u32, plan: Plan) -> Result<(), AllocError>
        ensures ok { OnOk result (self.new ≡ with_plan session plan self.old) }
        ensures err { OnErr result (self.new ≡ without_plan session self.old) }
    {
        self.forget(session);
        self.plans.push(KeptPlan { session, plan })?;
        Ok(())
    }

    /// Whether a plan is kept for a session.
    pub fn has(&self, session: u32) -> bool
        ensures { result ≡ is_some (plan_of self.now session) }
    {
        has_plan(&self.plans, session)
    }

    /// Keeps no plan for a session, and hands out the one before.
    pub fn take(&mut self, session: u32) -> Option<Plan>
        ensures plan { result ≡ plan_of self.old session }
        ensures left { self.new ≡ without_plan session self.old }
    {
        match self.place_of(session) {
            Some(place) => Some(self.plans.remove(place).plan),
            None => None,
        }
    }

    /// Keeps no plan for a session.
    pub fn forget(&mut self, session: u32)
        ensures { self.new ≡ without_plan session self.old }
    {
        let _plan = self.take(session);
    }

    /// The place of a session's plan.
    fn place_of(&self, session: u32) -> Option<usize>
        ensures place { result ≡ position (λ (k : KeptPlan). k.session == session) self.now }
        ensures within { IfSome result (λ place. place < length self.now) }
    {
        self.plans.iter().position(|kept| kept.session == session)
    }
}

/// Whether one of these plans is kept for a session.
fn has_plan(plans: &[KeptPlan], session: u32) -> bool
    ensures { result ≡ list_any (λ (k : KeptPlan). k.session == session) plans.now }
{
    plans.iter().any(|kept| kept.session == session)
}
