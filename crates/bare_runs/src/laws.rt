//! The law of the runs of programs that are the same but for spans and the spelling of constants, as
//! the contract of a function.

ghost use Rattle.bare_runs.specs.Laws.{RunAlike};

/// Programs that are the same but for spans and the spelling of constants have the same outcome on
/// every test with every number of units, after as many units.
pub fn runs_alike()
    ensures { RunAlike }
{}
