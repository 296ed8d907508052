//! The law of the texts of patches, as the contract of a function.

ghost use Rattle.c_reread.specs.ReadAgain.{TextsReadAgain};

use c_replace::{tokens_changed, tokens_replaced};
use c_splice::replaceable;
use printed_tokens::{cut_into_its_tokens, makes_no_trigraph, tokens_derive_it};

/// The text that a patch makes of a source is read as the program that it makes of the source's: at
/// each location, and for each change there by an expression whose words are each its token. It
/// has tokens, and these derive the changed program, but for spans, slots and the spelling of
/// constants, whatever its size and nesting.
pub fn texts_read_again()
    ensures { TextsReadAgain }
{
    replaceable();
    tokens_replaced();
    tokens_changed();
    cut_into_its_tokens();
    makes_no_trigraph();
    tokens_derive_it();
}
