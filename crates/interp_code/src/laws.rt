//! The law of plans, as the contract of a function that does nothing.

ghost use Rattle.interp_code.specs.Laws.{PlansAreRight};

/// The plans of each program do what the program does, whatever its holes do.
pub fn plans_are_right()
    ensures { PlansAreRight }
{}
