//! The words of the command line: a command, and the names and the options after it.
ghost use Rattle.std.specs.Prelude.{◌≡◌, ◌≤◌, [], ◌∷◌, true, option_map, MatchOption, IfSome};
ghost use Rattle.std.specs.List.{list_all};
ghost use Rattle.std.specs.Str.{all_ascii_digits};
ghost use Rattle.repair_cli.specs.Words.{repair, command_in, command_of as command_seen, asked_of as asked_seen};
ghost use Rattle.repair_cli.specs.Words.{options_of as options_seen, options_in as options_among, given, after as text_after};
ghost use Rattle.repair_cli.specs.Words.{words_of, is_option as begins_option, is_known as is_known_word, names, two};
ghost use Rattle.repair_cli.specs.Words.{number_to, number_given as number_of_option};
ghost use Rattle.repair_cli.specs.Words.{patches_in as patches_said, shown_by, edit_spelling};
ghost use Rattle.repair_cli.specs.Words.{is_numeral as is_numeral_text, is_within as is_number_within};

use crate::limits::{DEFAULT_PATCHES, MOST_DIGITS, MOST_PATCHES, MOST_UNITS};
use repair_job::Shown;

/// What may be said of a repair.
#[derive(Clone, Copy)]
pub(crate) struct Options {
    /// How many units each test may take; it goes before what the suite says.
    pub(crate) limit: Option<u64>,
    /// How many patches are tried at most.
    pub(crate) patches: u32,
    /// What an answer shows of a patch.
    pub(crate) shown: Shown,
}

/// What is asked for: the repair of the program of this name over the suite of this name.
#[derive(Clone, Copy)]
pub(crate) struct Asked<'a> {
    pub(crate) program: &'a str,
    pub(crate) suite: &'a str,
    pub(crate) options: Options,
}

/// A command.
#[derive(Clone, Copy)]
pub(crate) enum Command<'a> {
    /// `repair PROGRAM SUITE`, with options anywhere after `repair`.
    Repair(Asked<'a>),
}

/// The option that says how many units each test may take, up to its number.
const LIMIT: &str = "--limit=";

/// The option that says how many patches are tried at most, up to its number.
const PATCHES: &str = "--max-patches=";

/// The option that asks for the line of a patch in place of the patched source.
const EDIT: &str = "--edit";

/// The command that the words are, where they are `repair`, and then two names and options in any
/// order.
pub(crate) fn command_of(words: &[String]) -> Option<Command<'_>>
    ensures { option_map command_seen result ≡ command_in (words_of words.now) }
{
    let [word, rest @ ..] = words else {
        return None;
    };
    if word.as_str() != "repair" {
        return None;
    }
    let (program, suite) = names_in(rest)?;
    let options = options_in(rest)?;
    Some(Command::Repair(Asked {
        program,
        suite,
        options,
    }))
}

/// What a command asks for.
pub(crate) fn asked_by(command: Command<'_>) -> Asked<'_>
    ensures { command_seen command.entry ≡ repair (asked_seen result) }
{
    match command {
        Command::Repair(asked) => asked,
    }
}

// The names among the words, where there are just two, and neither is empty.
fn names_in(words: &[String]) -> Option<(&str, &str)>
    ensures { option_map (λ both. (both.0.now, both.1.now)) result
        ≡ two (names (words_of words.now)) }
{
    let (program, rest) = next_name(words)?;
    let (suite, rest) = next_name(rest)?;
    if program.is_empty() || suite.is_empty() || next_name(rest).is_some() {
        return None;
    }
    Some((program, suite))
}

// The first name among the words, and the words after it.
fn next_name(words: &[String]) -> Option<(&str, &[String])>
    ensures { MatchOption result (names (words_of words.now) ≡ [])
        (λ found. names (words_of words.now) ≡ found.0.now ∷ names (words_of found.1.now)) }
{
    let mut rest = words;
    while let [word, others @ ..] = rest {
        rest = others;
        if !is_option(word.as_bytes()) {
            return Some((word.as_str(), rest));
        }
    }
    None
}

// The options among the words, where each is one of a repair, and stands there at most once.
fn options_in(words: &[String]) -> Option<Options>
    ensures { option_map options_seen result ≡ options_among (words_of words.now) }
{
    if !are_known(words) {
        return None;
    }
    let limit = number_given(words, LIMIT, MOST_UNITS)?;
    let patches = patches_in(words)?;
    let shown = shown_in(words)?;
    Some(Options {
        limit,
        patches,
        shown,
    })
}

// How many patches the words say are tried at most, or the default; none where they say it twice,
// or by no number of that range.
fn patches_in(words: &[String]) -> Option<u32>
    ensures { result ≡ patches_said (words_of words.now) }
{
    let number = number_given(words, PATCHES, MOST_PATCHES)?;
    match number {
        Some(patches) => Some(patches as u32),
        None => Some(DEFAULT_PATCHES),
    }
}

// What the words ask to be shown of a patch; none where they ask for the line twice.
fn shown_in(words: &[String]) -> Option<Shown>
    ensures { result ≡ shown_by (given edit_spelling (words_of words.now)) }
{
    let Some((text, rest)) = next_given(words, EDIT) else {
        return Some(Shown::Source);
    };
    if !text.is_empty() || next_given(rest, EDIT).is_some() {
        return None;
    }
    Some(Shown::Line)
}

// Whether each option among the words is one of a repair.
fn are_known(words: &[String]) -> bool
    ensures { result ≡ list_all is_known_word (words_of words.now) }
{
    let mut rest = words;
    while let [word, others @ ..] = rest {
        rest = others;
        if !is_known(word.as_str()) {
            return false;
        }
    }
    true
}

// Whether the word is no option, or one of a repair.
fn is_known(word: &str) -> bool
    ensures { result ≡ is_known_word word.now }
{
    !is_option(word.as_bytes())
        || after(word, LIMIT).is_some()
        || after(word, PATCHES).is_some()
        || after(word, EDIT).is_some()
}

// The number of the option of this spelling, if the words give one; none where they give two, or no
// number from 1 to this.
fn number_given(words: &[String], spelling: &str, most: u64) -> Option<Option<u64>>
    ensures number { result ≡ number_of_option most (given spelling.now (words_of words.now)) }
    ensures within { IfSome result (λ number. IfSome number (λ n. n ≤ most)) }
{
    let Some((text, rest)) = next_given(words, spelling) else {
        return Some(None);
    };
    if next_given(rest, spelling).is_some() {
        return None;
    }
    let number = number_in(text, most)?;
    Some(Some(number))
}

// The first text that the words give the option of this spelling, and the words after it.
fn next_given<'a>(words: &'a [String], spelling: &str) -> Option<(&'a str, &'a [String])>
    ensures { MatchOption result (given spelling.now (words_of words.now) ≡ [])
        (λ found. given spelling.now (words_of words.now) ≡
        found.0.now ∷ given spelling.now (words_of found.1.now)) }
{
    let mut rest = words;
    while let [word, others @ ..] = rest {
        rest = others;
        if let Some(text) = after(word.as_str(), spelling) {
            return Some((text, rest));
        }
    }
    None
}

// What stands after this spelling, if the word begins with it.
fn after<'a>(word: &'a str, spelling: &str) -> Option<&'a str>
    ensures { option_map (λ text. text.now) result ≡ text_after spelling.now word.now }
{
    word.strip_prefix(spelling)
}

// The number from 1 to this that the text is, in one to ten digits.
fn number_in(text: &str, most: u64) -> Option<u64>
    ensures number { result ≡ number_to most text.now }
    ensures within { IfSome result (λ n. n ≤ most) }
{
    if !is_numeral(text) {
        return None;
    }
    let Ok(number) = text.parse::<u64>() else {
        return None;
    };
    if !is_within(number, most) {
        return None;
    }
    Some(number)
}

// Whether the text is one to ten decimal digits.
fn is_numeral(text: &str) -> bool
    ensures { result ≡ is_numeral_text text.now }
{
    1 <= text.len() && text.len() <= MOST_DIGITS && are_digits(text.as_bytes())
}

// Whether the number is from 1 to this.
fn is_within(number: u64, most: u64) -> bool
    ensures test { result ≡ is_number_within most number }
    ensures within { result ≡ true → number ≤ most }
{
    1 <= number && number <= most
}

// Whether each byte is a decimal digit.
fn are_digits(text: &[u8]) -> bool
    ensures { result ≡ all_ascii_digits text.now }
{
    for byte in text {
        if !byte.is_ascii_digit() {
            return false;
        }
    }
    true
}

// Whether the word begins with `-`.
fn is_option(word: &[u8]) -> bool
    ensures { result ≡ begins_option word.now }
{
    match word {
        [first, ..] => *first == b'-',
        [] => false,
    }
}
