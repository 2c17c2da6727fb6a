//! Laws of every execution: what each statement changes, and what every table keeps.
#![tactic(auto)]

mod laws;

pub use laws::{
    answers_are_typed, columns_stay_distinct, denied_changes_nothing, index_is_dropped,
    index_is_made, indexes_stay_distinct, names_stay_in_order, other_synonyms_stay, others_stay,
    rows_are_appended, rows_are_changed, rows_are_taken_out, rows_stay_typed,
    select_changes_nothing, sites_stay, synonym_is_dropped, synonym_is_made, synonyms_stay,
    synonyms_stay_in_order, table_is_dropped, table_is_made, tables_stay_at_sites,
    tables_stay_within,
};
