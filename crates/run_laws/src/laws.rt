//! Laws of the runs of checked programs, each the contract of a function that does nothing. A program with a hole may
//! be checked, though no text is that program.

ghost use Rattle.run_laws.specs.Laws.{HolesAreTyped, HolesFit, NamesHaveObjects};
ghost use Rattle.run_laws.specs.Laws.{TypedStatesShowVariables, StatementsKeepTypes, ExpressionsFindObjects};
ghost use Rattle.run_laws.specs.Laws.{RunsFindObjects, ArraysArePassedByName, OrderedProgramsHaveNoHole};
ghost use Rattle.run_laws.specs.Laws.{NoHoleIsMet, FormatsAgree};

/// Wherever a run of a checked program waits for a hole, each variable that is in scope at it (at one of them, where
/// there are several) has a live object of its type (C11 6.2.4), and each number in an object is a value of that type.
pub fn holes_are_typed()
    ensures objects { HolesAreTyped }
    ensures numbers { HolesFit }
{}

/// In a state that is typed by the scope of a name, the slot of the name names an object of the variable that the name
/// denotes.
pub fn names_have_objects()
    ensures { NamesHaveObjects }
{}

/// A state that is typed by a scope shows each variable that is visible there: its object, and in it values of the
/// variable's type alone.
pub fn typed_states_show_variables()
    ensures { TypedStatesShowVariables }
{}

/// Where the run goes on, a statement without a fault, in which each name has its slot, keeps the state typed by the
/// scope in which it stands.
pub fn statements_keep_types()
    ensures { StatementsKeepTypes }
{}

/// In the evaluation of an expression without a fault, in which each name has its slot, each slot that is read, written
/// or passed names a live object, which has one cell where a number is meant, what is written to is a place, and what
/// is called is there, takes its arguments, and has a result where one is wanted.
pub fn expressions_find_objects()
    ensures { ExpressionsFindObjects }
{}

/// In a run of a checked program each slot that is read, written or passed names a live object, which has one cell where
/// a number is meant, what is written to is a place, what is called is there, takes its arguments, and has a result where
/// one is wanted, an object has a cell for each initialiser, and control leaves a function's body at its end or by a `return` that fits its
/// result: in the declarations of file scope, in `main`, which is defined without parameters, and in each function that
/// is called. So no such run ends as trapped because a part of its tree is ill-formed, unless that part is a hole.
pub fn runs_find_objects()
    ensures { RunsFindObjects }
{}

/// In each call that is written in a checked program, what stands at an array parameter of the definition that is called
/// is the name of an array of the parameter's type.
pub fn arrays_are_passed_by_name()
    ensures { ArraysArePassedByName }
{}

/// A program whose parts stand in text order, as those of a parsed source do, has no hole. Where a checked program has
/// none, what holes do makes no difference to its run.
pub fn ordered_programs_have_no_hole()
    ensures none { OrderedProgramsHaveNoHole }
    ensures unmet { NoHoleIsMet }
{}

/// The rules of kinds and the printing count the conversions of a format alike.
pub fn formats_agree()
    ensures { FormatsAgree }
{}
