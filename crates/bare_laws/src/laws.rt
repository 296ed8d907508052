//! The laws of programs that are the same but for spans, slots and the spelling of constants, each
//! as the contract of a function.

ghost use Rattle.bare_laws.specs.Laws.{SameFaults, FaultlessAlike, SlotsAlike, CheckedAlike};

use c_types::{resolved_is_checked, resolving_changes_slots};

/// Programs that are the same but for spans, slots and the spelling of constants have faults of the
/// same kinds, in the same order. So where one has none, neither has the other.
pub fn same_faults()
    ensures kinds { SameFaults }
    ensures none { FaultlessAlike }
{}

/// Checked programs that are the same but for spans, slots and the spelling of constants have the
/// same slots.
pub fn slots_alike()
    ensures { SlotsAlike }
{}

/// A program that is the same as a checked one but for spans, slots and the spelling of constants
/// has no fault, and resolved it is a checked program that is the same but for spans and the
/// spelling of constants.
pub fn checked_alike()
    ensures { CheckedAlike }
{
    same_faults();
    resolved_is_checked();
    resolving_changes_slots();
}
