//! The law that the text of a patch, read again, is the patched program, as the contract of a
//! function.

ghost use Rattle.patch_reread.specs.ReadsAgain.{PatchesReadAgain};

use bare_laws::checked_alike;
use c_grammar::text_order;
use c_reread::texts_read_again;
use c_types::{resolved_is_checked, resolving_changes_slots, resolving_ignores_slots};
use patch_space::patched_is_checked;
use printed_tokens::{pure_prints, words_of_the_source, zero_and_one};

/// The text that each patch of a program makes of the program's source is read as the program that
/// the patch makes of it. It has tokens, which derive a program without a fault of names and kinds;
/// resolved, that is the patched program, but for spans and the spelling of constants.
pub fn patches_read_again()
    ensures { PatchesReadAgain }
{
    texts_read_again();
    words_of_the_source();
    zero_and_one();
    pure_prints();
    text_order();
    resolved_is_checked();
    resolving_changes_slots();
    resolving_ignores_slots();
    checked_alike();
    patched_is_checked();
}
