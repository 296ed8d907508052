//! Laws of the runs of checked programs: each variable that is in scope has its object.
#![tactic(auto)]

mod laws;

pub use laws::{
    arrays_are_passed_by_name, expressions_find_objects, formats_agree, holes_are_typed,
    names_have_objects, ordered_programs_have_no_hole, runs_find_objects, statements_keep_types,
    typed_states_show_variables,
};
