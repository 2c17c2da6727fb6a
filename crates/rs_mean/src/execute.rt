//! The effect of an execution.

ghost use Rattle.std.specs.Prelude.{◌≡◌, IfOk};
ghost use Rattle.rs_mean.specs.Changes.{changed};
ghost use Rattle.rs_mean.specs.Meaning as spec;
ghost use Rattle.rs_mean.specs.Outcome.{outcome_of};

use crate::change::{Change, Effect};
use crate::database::Database;
use crate::execution::Execution;
use rs_ast::Stmt;
use rs_base::{Answer, NoMemory};
use std::alloc::Global;

impl Database {
    #[tactic(auto, unfolding(crate::specs::Meaning::effect_of))]
    fn effect(&self, alloc: Global, execution: &Execution) -> Result<Effect, NoMemory>
        ensures { IfOk result (λ effect. effect ≡ spec.effect_of self.now execution.now) }
    {
        match &execution.stmt {
            Stmt::CreateTable { name, columns } => self.create_table(
                alloc,
                execution.txn,
                self.name_of(execution, name),
                columns.as_slice(),
            ),
            Stmt::DropTable { name } => Ok(self.drop_table(self.name_of(execution, name))),
            Stmt::CreateIndex {
                index,
                name,
                column,
            } => self.create_index(
                alloc,
                execution.txn,
                self.name_of(execution, name),
                *index,
                *column,
            ),
            Stmt::DropIndex { index, name } => {
                self.drop_index(alloc, self.name_of(execution, name), *index)
            }
            Stmt::CreateSynonym { synonym, name } => {
                let name = self.name_of(execution, name);
                Ok(self.create_synonym(execution, *synonym, name))
            }
            Stmt::DropSynonym { synonym } => Ok(self.drop_synonym(execution, *synonym)),
            Stmt::Dml(dml) => self.effect_of_dml(alloc, execution, dml),
            _ => Ok(Effect::done(Change::Nothing, Answer::Ok)),
        }
    }

    /// Returns what an execution changes, and its answer. Nothing changes before the change is applied; applied to this
    /// database it makes the one that the execution means. A denied execution has no change, and neither has one of a
    /// statement that isn't executed so far.
    pub fn effect_of(&self, alloc: Global, execution: &Execution) -> Result<Effect, NoMemory>
        ensures effect { IfOk result (λ effect. effect ≡ spec.effect_of self.now execution.now) }
        ensures meaning { IfOk result (λ effect. spec.meaning self.now execution.now
            ≡ (changed effect.change self.now, outcome_of effect.answer)) }
    {
        self.effect(alloc, execution)
    }
}
