//! The one database.

ghost use Rattle.std.specs.Prelude.{◌≡◌, OnOk, OnErr};
ghost use Rattle.std.specs.Option.{option_copied};
ghost use Rattle.rs_mean.specs.Changes.{changed, with_rows};
ghost use Rattle.rs_mean.specs.Database.{changing, empty, table_named, target_of, with_synonym, with_table, without_synonym, without_table};

use crate::change::Change;
use crate::synonym::Synonym;
use crate::table::Table;
use rs_ast::IndexOfs;
use rs_base::{NoMemory, SiteNo, Swn};
use rs_rows::StoredRows;
use std::alloc::Global;
use std::collections::BTreeMap;
use std::marker::Model;

/// The one database that all executions work on: tables by their system-wide names, sorted by name, and the names that
/// users' synonyms refer to.
#[derive(Drop)]
pub struct Database {
    sites: SiteNo,
    tables: BTreeMap<Swn, Table>,
    synonyms: BTreeMap<Synonym, Swn>,
}

impl Model for Database {
    ghost use Rattle.std.specs.Prelude.{[]};
    ghost use Rattle.rs_mean.specs.Database.{Database};

    ghost Value = { Database };

    ghost view = { λ it. record { sites = it.sites; tables = it.tables.entries; synonyms = it.synonyms.entries; programs = [] } };
}

impl Database {
    /// Makes the empty database of this number of sites.
    pub fn new(alloc: Global, sites: SiteNo) -> Database
        ensures { result ≡ empty sites }
    {
        Database {
            sites,
            tables: BTreeMap::new(alloc),
            synonyms: BTreeMap::new(alloc),
        }
    }

    /// Returns the number of sites.
    pub fn sites(&self) -> SiteNo
        ensures { result ≡ self.now.sites }
    {
        self.sites
    }

    /// Returns the tables, sorted by name.
    pub fn tables(&self) -> &BTreeMap<Swn, Table>
        ensures { result.now.entries ≡ self.now.tables }
    {
        &self.tables
    }

    /// Returns the tables of a database that is no longer used, sorted by name.
    pub fn into_tables(self) -> BTreeMap<Swn, Table>
        ensures { result.entries ≡ self.tables }
    {
        self.tables
    }

    /// Returns the table of this name, if there is one.
    pub fn table(&self, name: &Swn) -> Option<&Table>
        ensures { option_copied result ≡ table_named name.now self.now }
    {
        self.tables.get(name)
    }

    /// Returns the name that a synonym refers to, if there is such a synonym.
    pub fn target(&self, synonym: &Synonym) -> Option<Swn>
        ensures { result ≡ target_of synonym.now self.now }
    {
        self.synonyms.get(synonym).copied()
    }

    /// Stores the table under this name, replacing the one that has it. On out of memory nothing changes.
    fn put_table(&mut self, name: Swn, table: Table) -> Result<(), NoMemory>
        ensures ok { OnOk result (self.new ≡ with_table name table self.old) }
        ensures err { OnErr result (self.new ≡ self.old) }
    {
        self.tables.insert(name, table)?;
        Ok(())
    }

    fn remove_table(&mut self, name: &Swn)
        ensures { self.new ≡ without_table name.now self.old }
    {
        self.tables.remove(name);
    }

    fn put_synonym(&mut self, synonym: Synonym, name: Swn) -> Result<(), NoMemory>
        ensures ok { OnOk result (self.new ≡ with_synonym synonym name self.old) }
        ensures err { OnErr result (self.new ≡ self.old) }
    {
        self.synonyms.insert(synonym, name)?;
        Ok(())
    }

    fn remove_synonym(&mut self, synonym: &Synonym)
        ensures { self.new ≡ without_synonym synonym.now self.old }
    {
        self.synonyms.remove(synonym);
    }

    fn set_indexes(&mut self, name: &Swn, indexes: IndexOfs)
        ensures { self.new ≡ changing name.now (λ table. record table { indexes = indexes }) self.old }
    {
        let Some(table) = self.tables.get_mut(name) else {
            return;
        };
        table.indexes = indexes;
    }

    /// Appends the rows to the table, in time linear in them and one look-up. On out of memory nothing changes.
    fn append_rows(&mut self, name: &Swn, rows: StoredRows) -> Result<(), NoMemory>
        ensures ok { OnOk result (self.new ≡ changing name.now (with_rows rows) self.old) }
        ensures err { OnErr result (self.new ≡ self.old) }
    {
        let Some(table) = self.tables.get_mut(name) else {
            return Ok(());
        };
        table.append(rows)
    }

    fn set_rows(&mut self, name: &Swn, rows: StoredRows)
        ensures { self.new ≡ changing name.now (λ table. record table { rows = rows }) self.old }
    {
        let Some(table) = self.tables.get_mut(name) else {
            return;
        };
        table.rows = rows;
    }

    /// Applies the change. On out of memory nothing changes.
    pub fn apply(&mut self, change: Change) -> Result<(), NoMemory>
        ensures ok { OnOk result (self.new ≡ changed change self.old) }
        ensures err { OnErr result (self.new ≡ self.old) }
    {
        match change {
            Change::Nothing => Ok(()),
            Change::PutTable { name, table } => self.put_table(name, table),
            Change::DropTable { name } => {
                self.remove_table(&name);
                Ok(())
            }
            Change::SetIndexes { name, indexes } => {
                self.set_indexes(&name, indexes);
                Ok(())
            }
            Change::AppendRows { name, rows } => self.append_rows(&name, rows),
            Change::SetRows { name, rows } => {
                self.set_rows(&name, rows);
                Ok(())
            }
            Change::PutSynonym { synonym, name } => self.put_synonym(synonym, name),
            Change::DropSynonym { synonym } => {
                self.remove_synonym(&synonym);
                Ok(())
            }
        }
    }
}
