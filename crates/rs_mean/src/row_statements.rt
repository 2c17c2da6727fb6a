//! Statements on rows.

ghost use Rattle.std.specs.Prelude.{◌≡◌, [], ◌∷◌, flat_map, map, IfOk};
ghost use Rattle.rs_scope.specs.Denials.{first_denial};
ghost use Rattle.rs_mean.specs.Names.{name_of, table_tests};
ghost use Rattle.rs_mean.specs.RowStatements as spec;

use crate::bound_effect::{answering, effect_over, rows_of_query};
use crate::change::Effect;
use crate::columns::copy_columns;
use crate::database::Database;
use crate::execution::Execution;
use rs_ast::{Clause, Dml, Select, Set, TableRef, TermRow};
use rs_base::{Denial, NameText, NoMemory, Swn, with_room};
use rs_bind_change::{bind_delete, bind_insert, bind_update};
use rs_bind_query::bind_select;
use rs_plan::{Bound, Swns};
use rs_rows::{RowRun, StoredRows};
use rs_scope::{Heading, Headings};
use std::alloc::Global;

impl Database {
    fn heading_in(&self, alloc: Global, name: &Swn) -> Result<Heading, NoMemory>
        ensures { IfOk result (λ heading. heading ≡ spec.heading_in self.now name.now) }
    {
        Ok(Heading {
            name: *name,
            columns: copy_columns(alloc, self.columns_of(name))?,
        })
    }

    fn headings_in(&self, alloc: Global, names: &[Swn]) -> Result<Headings, NoMemory>
        ensures { IfOk result (λ headings. headings ≡ map (spec.heading_in self.now) names.now) }
    {
        let mut headings = with_room(alloc, names.len())?;
        for name in names {
            headings.push(self.heading_in(alloc, name)?)?;
        }
        Ok(headings)
    }

    fn rows_in(&self, name: &Swn) -> RowRun<'_>
        ensures { result ≡ spec.rows_in self.now name.now }
    {
        let Some(table) = self.table(name) else {
            return RowRun::empty();
        };
        table.rows.as_run()
    }

    fn all_rows_in(&self, alloc: Global, names: &[Swn]) -> Result<Vec<RowRun<'_>>, NoMemory>
        ensures { IfOk result (λ tables. tables.items ≡ map (spec.rows_in self.now) names.now) }
    {
        let mut tables = Vec::with_capacity(alloc, names.len())?;
        for name in names {
            tables.push(self.rows_in(name))?;
        }
        Ok(tables)
    }

    fn tables_denial(&self, names: &[Swn]) -> Option<Denial>
        ensures { result ≡ first_denial (flat_map (table_tests self.now) names.now) }
    {
        for name in names {
            if let Some(cause) = self.table_denial(name) {
                return Some(cause);
            }
        }
        None
    }

    fn names_of(
        &self,
        alloc: Global,
        execution: &Execution,
        tables: &[TableRef],
    ) -> Result<Swns, NoMemory>
        ensures { IfOk result (λ names. names ≡ map (λ table. name_of self.now execution.now table.name) tables.now) }
    {
        let mut names = with_room(alloc, tables.len())?;
        for table in tables {
            names.push(self.name_of(execution, &table.name))?;
        }
        Ok(names)
    }

    fn select(&self, alloc: Global, names: &[Swn], query: &Select) -> Result<Effect, NoMemory>
        ensures { IfOk result (λ effect. effect ≡ spec.select spec.no_arguments (spec.tables_in self.now) names.now query.now) }
    {
        if let Some(cause) = self.tables_denial(names) {
            return Ok(Effect::denied(cause));
        }
        let tables = self.all_rows_in(alloc, names)?;
        let headings = self.headings_in(alloc, names)?;
        match bind_select(alloc, query, headings.as_slice(), &[])? {
            Ok(bound) => Ok(answering(rows_of_query(alloc, &bound, tables.as_slice())?)),
            Err(cause) => Ok(Effect::denied(cause)),
        }
    }

    fn query(
        &self,
        alloc: Global,
        execution: &Execution,
        query: &Select,
    ) -> Result<Effect, NoMemory>
        ensures { IfOk result (λ effect. effect
            ≡ spec.query spec.no_arguments (spec.tables_in self.now) (name_of self.now execution.now) query.now) }
    {
        let names = self.names_of(alloc, execution, query.from.as_slice())?;
        self.select(alloc, names.as_slice(), query)
    }

    /// Returns the effect of a change of this table, once it is bound.
    fn once_bound(
        &self,
        alloc: Global,
        name: &Swn,
        outcome: Result<Bound, Denial>,
    ) -> Result<Effect, NoMemory>
        ensures { IfOk result (λ effect. effect ≡ spec.once_bound [] (spec.rows_in self.now name.now ∷ []) outcome) }
    {
        match outcome {
            Ok(bound) => self.effect_over(alloc, name, bound),
            Err(cause) => Ok(Effect::denied(cause)),
        }
    }

    fn effect_over(&self, alloc: Global, name: &Swn, bound: Bound) -> Result<Effect, NoMemory>
        ensures { IfOk result (λ effect. effect ≡ spec.effect_of_bound [] (spec.rows_in self.now name.now ∷ []) bound) }
    {
        match self.table(name) {
            Some(table) => effect_over(alloc, bound, &table.rows),
            None => effect_over(alloc, bound, &StoredRows::new(alloc)),
        }
    }

    fn insert(&self, alloc: Global, name: &Swn, rows: &[TermRow]) -> Result<Effect, NoMemory>
        ensures { IfOk result (λ effect. effect ≡ spec.insert spec.no_arguments (spec.tables_in self.now) name.now rows.now) }
    {
        if let Some(cause) = self.table_denial(name) {
            return Ok(Effect::denied(cause));
        }
        let heading = self.heading_in(alloc, name)?;
        let outcome = bind_insert(alloc, rows, &heading, &[])?;
        self.once_bound(alloc, name, outcome)
    }

    fn update(
        &self,
        alloc: Global,
        name: &Swn,
        sets: &[Set],
        clauses: &[Clause],
    ) -> Result<Effect, NoMemory>
        ensures { IfOk result (λ effect. effect
            ≡ spec.update spec.no_arguments (spec.tables_in self.now) name.now sets.now clauses.now) }
    {
        if let Some(cause) = self.table_denial(name) {
            return Ok(Effect::denied(cause));
        }
        let heading = self.heading_in(alloc, name)?;
        let outcome = bind_update(alloc, sets, clauses, &heading, &[])?;
        self.once_bound(alloc, name, outcome)
    }

    fn delete(&self, alloc: Global, name: &Swn, clauses: &[Clause]) -> Result<Effect, NoMemory>
        ensures { IfOk result (λ effect. effect
            ≡ spec.delete spec.no_arguments (spec.tables_in self.now) name.now clauses.now) }
    {
        if let Some(cause) = self.table_denial(name) {
            return Ok(Effect::denied(cause));
        }
        let heading = self.heading_in(alloc, name)?;
        let outcome = bind_delete(alloc, clauses, &heading, &[])?;
        self.once_bound(alloc, name, outcome)
    }

    /// Returns what a statement on rows changes and answers.
    #[tactic(auto, unfolding(crate::specs::RowStatements::effect_of_dml))]
    pub(crate) fn effect_of_dml(
        &self,
        alloc: Global,
        execution: &Execution,
        dml: &Dml,
    ) -> Result<Effect, NoMemory>
        ensures { IfOk result (λ effect. effect ≡ spec.effect_of_dml spec.no_arguments self.now execution.now dml.now) }
    {
        match dml {
            Dml::Select(query) => self.query(alloc, execution, query),
            Dml::Insert { name, rows } => {
                self.insert(alloc, &self.name_of(execution, name), rows.as_slice())
            }
            Dml::Update {
                name,
                sets,
                clauses,
            } => self.update(
                alloc,
                &self.name_of(execution, name),
                sets.as_slice(),
                clauses.as_slice(),
            ),
            Dml::Delete { name, clauses } => {
                self.delete(alloc, &self.name_of(execution, name), clauses.as_slice())
            }
        }
    }
}
