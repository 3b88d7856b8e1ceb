//! Define: a statement on the definitions.
ghost use Rattle.std.specs.Prelude.{◌≡◌, Ok, Err, length, IsTrue, IsOk, IfOk, IfErr, OnErr};

use super::Machine;
use crate::counters::none_ended;
use crate::done::Done;
use places::Guesses;
use pool_table::{accept, apply};
use rm_base::refusal::Refusal;
use rm_base::reply::Reply;
use rm_base::statement::Statement;
use rm_rules::answer::Answer;

impl Machine {
    ghost use Rattle.rm_base.specs.declared.event.Event.TheVariants.{Define};
    ghost use Rattle.rm_base.specs.Ranges.{is_statement_in_range};
    ghost use Rattle.rm_rules.specs.Acceptance.{accepted};
    ghost use Rattle.rm_rules.specs.DropPool.{drops_none};
    ghost use Rattle.rm_rules.specs.Change.{defined, defined_by, defining};
    ghost use Rattle.rm_rules.specs.Sound.{IsSound};
    ghost use Rattle.rm_rules.specs.Healthy.{AreSized, IsHealthy};
    ghost use Rattle.rm_rules.specs.Replay.{IsFormed};
    ghost use Rattle.machine.specs.Done.{change_to};

    /// Makes the change of an accepted statement that drops no pool. A new pool has no bytes yet, and no query of it has
    /// ended.
    fn apply_statement(&mut self, statement: &Statement)
        requires sound { IsSound self.old.definitions }
        requires in_range { IsTrue (is_statement_in_range statement.now) }
        requires drops_none { IsTrue (drops_none statement.now) }
        requires accepted { IsOk (accepted self.old.definitions statement.now) }
        requires sized { AreSized self.old.definitions self.old.actual self.old.counters }
        ensures definitions { accepted self.old.definitions statement.now ≡ Ok self.new.definitions }
        ensures state { self.new ≡ defined self.old self.new.definitions }
    {
        let pools = self.definitions.pools.len();
        apply(&mut self.definitions, statement);
        let rows = self.definitions.pools.rows();
        if pools < rows.len() {
            let name = rows[pools].name;
            self.runs.add_pool(name);
            self.counters.add(none_ended());
        }
    }

    /// Makes the change of an accepted statement.
    fn take_statement(&mut self, statement: &Statement)
        requires sound { IsSound self.old.definitions }
        requires in_range { IsTrue (is_statement_in_range statement.now) }
        requires accepted { IsOk (accepted self.old.definitions statement.now) }
        requires sized { AreSized self.old.definitions self.old.actual self.old.counters }
        ensures definitions { accepted self.old.definitions statement.now ≡ Ok self.new.definitions }
        ensures state { self.new ≡ defined_by self.old statement.now self.new.definitions }
    {
        match statement {
            Statement::DropPool(pool) => self.drop_pool(*pool),
            Statement::CreatePool(_, _)
            | Statement::AlterPool(_, _)
            | Statement::CreateUser(_, _)
            | Statement::AlterUser(_, _)
            | Statement::DropUser(_)
            | Statement::CreateRole(_)
            | Statement::AlterRole(_, _)
            | Statement::DropRole(_)
            | Statement::GrantUsage(_, _)
            | Statement::RevokeUsage(_, _)
            | Statement::GrantRole(_, _)
            | Statement::RevokeRole(_, _) => self.apply_statement(statement),
        }
    }

    /// The places of the pools are found as they are now.
    fn note_places(&mut self)
        ensures { self.new ≡ self.old }
    {
        self.places = Guesses::of(self.definitions.pools.rows());
    }

    /// The statement is accepted and applied, or refused.
    pub fn define(&mut self, statement: &Statement) -> Result<Done, Refusal>
        requires healthy { IsHealthy self.old }
        requires formed { IsFormed (Define statement.now) }
        ensures ok { IfOk result (λ done. defining self.old statement.now ≡ Ok (change_to self.new done)) }
        ensures err { IfErr result (λ refusal. defining self.old statement.now ≡ Err refusal) }
        ensures kept { OnErr result (self.new ≡ self.old) }
    {
        accept(&self.definitions, statement)?;
        self.take_statement(statement);
        self.note_places();
        Ok(Done::changing(Answer::Says(Reply::Defined)))
    }
}
