//! Scopes and kinds: what each name of a program denotes (C11 6.2.1), and the first fault of a program that the grammar
//! accepts and C11 or f1x doesn't.
#![tactic(auto)]

mod arguments;
mod check_program;
mod constant;
mod declaration;
mod declared;
mod expr;
mod fault;
mod first;
mod formats;
mod kinds;
mod laws;
mod program;
mod reads;
mod resolve;
mod resolve_file;
mod scope;
mod stmt;
mod typed;
mod visible;

pub use check_program::check;
pub use fault::{Fault, FaultKind, TypeFault};
pub use kinds::{Kind, Wanted};
pub use laws::{
    faults_ignore_slots, names_are_resolved, operators_are_typed_alike, resolved_is_checked,
    resolving_changes_slots, resolving_ignores_slots,
};
pub use reads::Reads;
pub use scope::{Declaration, Entity, ParamType, ParamTypes, Scope, Storage};
pub use typed::Typed;
pub use visible::Visible;
