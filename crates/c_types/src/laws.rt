//! The laws of scopes and kinds, each as the contract of a function.

ghost use Rattle.c_types.specs.Laws.{ResolvingChangesSlots, ResolvingKeepsOrder, ResolvingKeepsBare, ResolvingIgnoresSlots, ResolvingAgain, FaultsIgnoreSlots, ResolvingKeepsFaults, ResolvedIsChecked, NamesAreResolved, OperatorsAreTypedAlike};

/// Resolving a program changes its slots and nothing else. So its spans stay in text order, and without spans, slots
/// and the spelling of constants it is the same program.
pub fn resolving_changes_slots()
    ensures slots { ResolvingChangesSlots }
    ensures order { ResolvingKeepsOrder }
    ensures bare { ResolvingKeepsBare }
{}

/// Resolving doesn't look at the slots that a program had before. So resolving again changes nothing.
pub fn resolving_ignores_slots()
    ensures before { ResolvingIgnoresSlots }
    ensures again { ResolvingAgain }
{}

/// The faults of a program don't depend on its slots. So resolving changes none.
pub fn faults_ignore_slots()
    ensures before { FaultsIgnoreSlots }
    ensures resolved { ResolvingKeepsFaults }
{}

/// A program without a fault, resolved, is a checked one.
pub fn resolved_is_checked()
    ensures { ResolvedIsChecked }
{}

/// In a checked program each name in an expression has the slot of the variable that it denotes, and before a `[` that
/// variable is an array.
pub fn names_are_resolved()
    ensures { NamesAreResolved }
{}

/// An expression with another operator between the same operands has the same kind and the same faults wherever it
/// stands, and its names have their slots where those of the first do.
pub fn operators_are_typed_alike()
    ensures { OperatorsAreTypedAlike }
{}
