//! The laws of the text of a printed expression, each as the contract of a function.

ghost use Rattle.std.specs.Prelude.{pos, codes};
ghost use Rattle.c_lex.specs.declared.token.TokenKind.TheVariants as kind;
ghost use Rattle.c_lex.specs.Tokens.{Macros};
ghost use Rattle.c_splice.specs.Words.{IsWordOf};
ghost use Rattle.printed_tokens.specs.Laws.{
  CutIntoItsTokens,
  ExpressionsSourced,
  MakesNoTrigraph,
  ProgramsSourced,
  PurePrints,
  TokensDeriveIt,
};

/// The text of a pure expression is cut into its tokens where a seam follows it, if each constant
/// and name in it is spelled by a word that is that token by itself. (A seam is a space, a bracket,
/// a comma or a semicolon.)
pub fn cut_into_its_tokens()
    ensures { CutIntoItsTokens }
{}

/// The text of such an expression isn't empty, holds no trigraph and no line splice, and makes none
/// with what follows it.
pub fn makes_no_trigraph()
    ensures { MakesNoTrigraph }
{}

/// All tokens of the kinds that the text of such an expression is cut into derive the expression,
/// but for spans, slots and the spelling of constants.
pub fn tokens_derive_it()
    ensures { TokensDeriveIt }
{}

/// An expression and a program have only words of the tokens that they are derived from: where each
/// of these is spelled by a word that is that token by itself, so is each of theirs.
pub fn words_of_the_source()
    ensures expressions { ExpressionsSourced }
    ensures programs { ProgramsSourced }
{}

/// A pure expression of which each constant and name is spelled so has a text that is cut into its
/// tokens.
pub fn pure_prints()
    ensures { PurePrints }
{}

/// `0` and `1` are words that are each its constant by itself, whatever macros are defined.
pub fn zero_and_one()
    ensures zero { (m : Macros) → IsWordOf m (codes "0") (kind.Const (pos 0) (codes "0")) }
    ensures one { (m : Macros) → IsWordOf m (codes "1") (kind.Const (pos 1) (codes "1")) }
{}
