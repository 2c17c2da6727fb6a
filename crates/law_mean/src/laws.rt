//! Laws of every execution, whatever the database. Each function here is a law: its contract states it, and its body
//! does nothing.

ghost use Rattle.law_mean.specs.Laws.{AnswersAreTyped, ColumnsStayDistinct, DeniedChangesNothing, IndexIsDropped, IndexIsMade, IndexesStayDistinct, NamesStayInOrder, OtherSynonymsStay, OthersStay, RowsAreAppended, RowsAreChanged, RowsAreTakenOut, RowsStayTyped, SelectChangesNothing, SitesStay, SynonymIsDropped, SynonymIsMade, SynonymsStay, SynonymsStayInOrder, TableIsDropped, TableIsMade, TablesStayAtSites, TablesStayWithin};

/// A denied execution changes nothing.
pub fn denied_changes_nothing()
    ensures { DeniedChangesNothing }
{}

/// A SELECT changes nothing.
pub fn select_changes_nothing()
    ensures { SelectChangesNothing }
{}

/// No execution changes the number of sites.
pub fn sites_stay()
    ensures { SitesStay }
{}

/// The names are distinct and rise, at first and after each execution.
pub fn names_stay_in_order()
    ensures { NamesStayInOrder }
{}

/// The synonyms are distinct and rise, at first and after each execution.
pub fn synonyms_stay_in_order()
    ensures { SynonymsStayInOrder }
{}

/// An execution touches no table but its own.
pub fn others_stay()
    ensures { OthersStay }
{}

/// Only statements on synonyms change what synonyms refer to.
pub fn synonyms_stay()
    ensures { SynonymsStay }
{}

/// An execution touches no synonym but its own: none of another user, and none at another site.
pub fn other_synonyms_stay()
    ensures { OtherSynonymsStay }
{}

/// After a done CREATE TABLE its name, which no table had, has the new table, without a row.
pub fn table_is_made()
    ensures { TableIsMade }
{}

/// After a done DROP TABLE no table has its name, which one had before, if the names were sorted.
pub fn table_is_dropped()
    ensures { TableIsDropped }
{}

/// After a done INSERT of values its name has the table that it had, with the rows of these values appended.
pub fn rows_are_appended()
    ensures { RowsAreAppended }
{}

/// After a done DELETE its table has as many rows less as it reports.
pub fn rows_are_taken_out()
    ensures { RowsAreTakenOut }
{}

/// After a done UPDATE its table has as many rows as before, and it reports at most that number.
pub fn rows_are_changed()
    ensures { RowsAreChanged }
{}

/// After a done CREATE INDEX its table has the index, of this name, after those that it had; it is on the column of that
/// name if the table has at most 16 columns.
pub fn index_is_made()
    ensures { IndexIsMade }
{}

/// After a done DROP INDEX its table, which had an index of this name, has its other indexes.
pub fn index_is_dropped()
    ensures { IndexIsDropped }
{}

/// After a done CREATE SYNONYM the user's synonym at the asked site, which wasn't there, refers to the name.
pub fn synonym_is_made()
    ensures { SynonymIsMade }
{}

/// After a done DROP SYNONYM the user's synonym at the asked site, which was there, is gone, if synonyms were sorted.
pub fn synonym_is_dropped()
    ensures { SynonymIsDropped }
{}

/// A table never has more than 65,536 rows, nor more than 8,388,608 bytes, nor a row of more than 1,024 bytes, at first
/// and after each execution.
pub fn tables_stay_within()
    ensures { TablesStayWithin }
{}

/// Each table is stored at one of the sites, at first and after each execution.
pub fn tables_stay_at_sites()
    ensures { TablesStayAtSites }
{}

/// No table has two columns of one name, at first and after each execution.
pub fn columns_stay_distinct()
    ensures { ColumnsStayDistinct }
{}

/// No table has two indexes of one name, or on one column, at first and after each execution.
pub fn indexes_stay_distinct()
    ensures { IndexesStayDistinct }
{}

/// Each row of each table has a value for each column, of its kind, at first and after each execution of a statement that
/// keeps the limits, as each that is written does.
pub fn rows_stay_typed()
    ensures { RowsStayTyped }
{}

/// Over typed tables, a SELECT that keeps the limits, as each that is written does, and is answered has a kind for each
/// item: that of its column, and INT for COUNT and SUM. Each row that it answers has a value for each, of its kind.
pub fn answers_are_typed()
    ensures { AnswersAreTyped }
{}
