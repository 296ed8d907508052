//! The laws of candidates, each as the contract of a function.

ghost use Rattle.schemas.specs.Laws.{CandidatesCanBeMade, SameAreEqualWhenBare};

/// Each candidate of a location can be made there: it makes an expression.
pub fn candidates_can_be_made()
    ensures { CandidatesCanBeMade }
{}

/// Two expressions are the same, as candidates are compared, exactly where they are equal but for spans, slots and the
/// spelling of constants.
pub fn same_are_equal_when_bare()
    ensures { SameAreEqualWhenBare }
{}
