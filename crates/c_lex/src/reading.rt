//! The tokens of a whole source.

ghost use Rattle.std.specs.Prelude.{◌≡◌, ◌≢◌, ◌<◌, ◌≤◌, ◌^◌, false, length, Ok, Err, IfOk, IfErr};
ghost use Rattle.c_lex.specs.declared.fault.LexFault.TheVariants as fault;
ghost use Rattle.c_lex.specs.Bytes.{Bytes};
ghost use Rattle.c_lex.specs.Laws.{EachHasOutcome};
ghost use Rattle.c_lex.specs.Lexemes.{Rise};
ghost use Rattle.c_lex.specs.Tokens.{Outcome, Cuts, first_macros, Lexes, IsPlaced};

use crate::fault::LexFault;
use crate::macros::MacroMap;
use crate::scan::{Scanned, scan_at};
use crate::target::{Target, find, is_splice};
use crate::token::Token;
use c_tree::Span;
use std::alloc::Global;

// The tokens of a source in which nothing is refused wherever it stands.
fn tokens_of(alloc: Global, bytes: &[u8]) -> Result<Vec<Token>, LexFault>
    requires { length bytes.now < 2 ^ 32 }
    ensures ok { IfOk result (λ tokens. Cuts false first_macros 0 bytes.now (Ok tokens.items)) }
    ensures err { IfErr result (λ f. f ≢ fault.NoMemory
        → Cuts false first_macros 0 bytes.now (Err f)) }
{
    let mut macros = MacroMap::new(alloc)?;
    let mut tokens = Vec::new(alloc);
    let mut begun = false;
    let mut at = 0;
    while at < bytes.len() {
        let found = scan_at(alloc, &macros, begun, at, &bytes[at..])?;
        match found {
            Scanned::Pass(len) => at += len,
            Scanned::Define { name, value, len } => {
                macros.define(name, value)?;
                at += len;
            }
            Scanned::Take { kind, len } => {
                let span = Span {
                    from: at as u32,
                    to: (at + len) as u32,
                };
                tokens.push(Token { kind, span })?;
                begun = true;
                at += len;
            }
        }
    }
    Ok(tokens)
}

/// The tokens of a source (C11 6.4), each with the bytes that it covers. The head of a source may
/// include <stdio.h> and <stdlib.h> and define macros of integer constants, whose names are
/// constants in what follows.
///
/// # Errors
/// The first fault of the source, with its place: a line splice or a trigraph where there is one
/// anywhere, else what the reading from the left meets first. `NoMemory` where the allocator has no
/// memory left.
pub fn lex(alloc: Global, bytes: &[u8]) -> Result<Vec<Token>, LexFault>
    requires { length bytes.now < 2 ^ 32 }
    ensures ok { IfOk result (λ tokens. Lexes bytes.now (Ok tokens.items)) }
    ensures rise { IfOk result (λ tokens. Rise 0 (length bytes.now) tokens.items) }
    ensures err { IfErr result (λ f. f ≢ fault.NoMemory → Lexes bytes.now (Err f)) }
    ensures place { IfErr result (IsPlaced (length bytes.now)) }
{
    match find(Target::Refused, bytes) {
        Some(at) if is_splice(&bytes[at..]) => Err(LexFault::LineSplice(at as u32)),
        Some(at) => Err(LexFault::Trigraph(at as u32)),
        None => tokens_of(alloc, bytes),
    }
}

/// The law that a source has one outcome at most.
pub fn one_outcome()
    ensures { (bytes : Bytes) (r s : Outcome) → Lexes bytes r → Lexes bytes s → r ≡ s }
{}

/// The law that a source has an outcome, whatever its bytes and however long it is: its tokens, or
/// a first fault that is not `NoMemory`.
pub fn some_outcome()
    ensures { EachHasOutcome }
{}
