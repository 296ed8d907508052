//! Laws of arithmetic, each the contract of a function that does nothing.

ghost use Rattle.c_arith.specs.Laws.{ConversionFits, ConversionIsModulo, ConversionIsUnique, DivisionIsWhole, RemaindersAreLess, BitsAreThose};

/// A conversion gives the one value of the type that equals the number modulo 2 to the number of the type's bits
/// (C11 6.3.1.3).
pub fn conversion_is_modulo()
    ensures fits { ConversionFits }
    ensures modulo { ConversionIsModulo }
    ensures unique { ConversionIsUnique }
{}

/// Where `/` and `%` have values, `a / b * b + a % b` is `a`, and `a % b` is nearer to 0 than `b` (C11 6.5.5 p6).
pub fn division_is_whole()
    ensures whole { DivisionIsWhole }
    ensures less { RemaindersAreLess }
{}

/// The bits of the results of `~`, `&`, `|` and `^` are those of two's complement (C11 6.5.3.3, 6.5.10 to 6.5.12).
pub fn bits_are_those()
    ensures { BitsAreThose }
{}
