//! The law of rewritten programs, as the contract of a function that does nothing.

ghost use Rattle.rewrite_laws.specs.Laws.{RewrittenIsChecked};

/// A checked program stays one where what stands at a location becomes something else that fits there as well: a number
/// for a number, a statement for a statement, without a fault, and with the slot of each name.
pub fn rewritten_is_checked()
    ensures { RewrittenIsChecked }
{}
