//! Laws of runs, each the contract of a function that does nothing.

ghost use Rattle.c_meaning.specs.Laws.{UnitsFall, LoopsTurn, BlocksEnd, CellsFit};

/// No run has more units at its end than at its start.
pub fn units_fall()
    ensures { UnitsFall }
{}

/// A loop is one turn, and then the loop again, unless the turn leads elsewhere.
pub fn loops_turn()
    ensures { LoopsTurn }
{}

/// A block leaves as many objects as it found (C11 6.2.4 p6).
pub fn blocks_end()
    ensures { BlocksEnd }
{}

/// A number in a cell is always a value of its object's type (C11 6.5.16.1 p2).
pub fn cells_fit()
    ensures { CellsFit }
{}
