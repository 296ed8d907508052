//! Laws of runs with answers, each the contract of a function that does nothing.

ghost use Rattle.interp.specs.Future.{FilledFits};
ghost use Rattle.interp.specs.Following.{MachinesFollow};
ghost use Rattle.interp.specs.Whole.{EndsWithoutHole, TreesAreWhole};

/// After some answers a machine says what the program does with them, and each value of a hole is one more answer.
pub fn machines_follow()
    ensures { MachinesFollow }
{}

/// Without a hole a run ends as the program's own run does.
pub fn ends_without_hole()
    ensures { EndsWithoutHole }
{}

/// No hole stands in the tree of a program.
pub fn trees_are_whole()
    ensures { TreesAreWhole }
{}

/// A number in a cell is a value of its object's type, wherever a run with answers ends or waits.
pub fn cells_fit_while_waiting()
    ensures { FilledFits }
{}
