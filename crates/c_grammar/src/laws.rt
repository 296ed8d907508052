//! Laws of the grammar.

ghost use Rattle.std.specs.Prelude.{◌≡◌, ℕ, List};
ghost use Rattle.c_tree.specs.Tree.{Outer};
ghost use Rattle.c_grammar.specs.Grammar.{Tokens};
ghost use Rattle.c_grammar.specs.Programs.{Derives};
ghost use Rattle.c_grammar.specs.BegunNesting.{Passes};
ghost use Rattle.c_grammar.specs.Judge.{Verdict, too_deep_at, Judged};
ghost use Rattle.c_grammar.specs.Texts.{ExpressionsOwnTokens, IsInTextOrder, StatementsOwnTokens};

/// Tokens are one program alone, at whatever nesting.
pub fn one_program()
    ensures one { (r s : ℕ) (a : Tokens) (p q : List Outer) → Derives r a p → Derives s a q
        → p ≡ q }
{}

/// The grammar admits a verdict on all tokens: they are a program that is derived; or there is a
/// first token, or the end, with which nothing is a program; or a first with which a program nests
/// deeper than the room.
pub fn verdict()
    ensures some { (r : ℕ) (a : Tokens) → (v : Verdict) × Judged r a v }
{}

/// And it admits one verdict alone.
pub fn exact()
    ensures one { (r : ℕ) (a : Tokens) (v w : Verdict) → Judged r a v → Judged r a w → v ≡ w }
{}

/// A token is nested too deep exactly where the tokens before it, with it, begin a program, the
/// nesting at it is one more than the room, and nowhere before it is the nesting more than the
/// room. (The nesting at a token is the same in every derivation of what begins a program:
/// `viable_nesting_is_room`.)
pub fn too_deep()
    ensures passes { (r : ℕ) (a b : Tokens) → Judged r a (too_deep_at b) → Passes r a b }
    ensures refused { (r : ℕ) (a b : Tokens) → Passes r a b → Judged r a (too_deep_at b) }
{}

/// A program is in text order: no span is empty, the text of a part lies inside the text of the
/// whole, and the parts follow one another in it, as the tokens do that the program is derived
/// from.
pub fn text_order()
    ensures { IsInTextOrder }
{}

/// An expression and a statement have tokens of their own. They begin and end where its text does.
pub fn own_tokens()
    ensures expressions { ExpressionsOwnTokens }
    ensures statements { StatementsOwnTokens }
{}
