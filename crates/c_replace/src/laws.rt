//! The laws of programs and the kinds of their tokens, each as the contract of a function.

ghost use Rattle.c_replace.specs.Shapes.{ExpressionsByKinds};
ghost use Rattle.c_replace.specs.Replacing.{ProgramsByKinds, EachReplaceable, ChangesReplace};

use c_grammar::text_order;
use c_location::{each_names_one_place, nothing_elsewhere};

/// An expression has tokens of its own, which cover its text, and all tokens of their kinds are the
/// same expression, whatever follows them.
pub fn expressions_by_kinds()
    ensures { ExpressionsByKinds }
{}

/// All tokens of the kinds of a program's tokens are the same program, but for spans, slots and the
/// spelling of constants.
pub fn programs_by_kinds()
    ensures { ProgramsByKinds }
{
    text_order();
    each_names_one_place();
    nothing_elsewhere();
}

/// At each location of a program, others can stand in the place of its tokens. Where they are what
/// a rewrite makes of the part that stands there, the tokens are the program rewritten at the
/// location.
pub fn tokens_replaced()
    ensures { EachReplaceable }
{
    text_order();
    each_names_one_place();
}

/// The same by the changes that a patch makes: another condition or right side, the old condition
/// joined with another by `&&` or `||`, and an `if` put round a statement.
pub fn tokens_changed()
    ensures { ChangesReplace }
{}
