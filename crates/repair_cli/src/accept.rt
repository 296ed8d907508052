//! Which programs are accepted.
ghost use Rattle.std.specs.Prelude.{◌≡◌, ◌≢◌, IfOk, MatchResult};
ghost use Rattle.c_lex.specs.declared.fault.LexFault.TheVariants as lex;
ghost use Rattle.c_parse.specs.declared.fault.ParseFault.TheVariants as parse;
ghost use Rattle.c_types.specs.Evidence.{IsOrdered};
ghost use Rattle.c_types.specs.Shown.{tree_of};
ghost use Rattle.c_types.specs.declared.fault.TypeFault.TheVariants as kinds;
ghost use Rattle.repair_cli.specs.Accepted.{IsProgram, IsShort};
ghost use Rattle.repair_cli.specs.Parts.{IsFaultUnless};
ghost use Rattle.repair_cli.specs.declared.fault.ProgramFault.TheVariants.{Lex, Parse, Kinds, NoMemory};

use crate::fault::ProgramFault;
use crate::tried::few_locations;
use c_lex::{LexFault, lex};
use c_parse::{ParseFault, parse};
use c_types::{TypeFault, Typed, check};
use schemas::LocFault;
use std::alloc::Global;

/// The program of this source. Its parts stand in text order.
///
/// # Errors
///
/// The first fault of the source, or `NoMemory` where memory runs out.
pub(crate) fn accept(alloc: Global, bytes: &[u8]) -> Result<Typed, ProgramFault>
    requires { IsShort bytes.now }
    ensures judged { MatchResult result
        (λ program. IsProgram bytes.now (tree_of program))
        (IsFaultUnless bytes.now) }
    ensures ordered { IfOk result (λ program. IsOrdered (tree_of program)) }
{
    let end = bytes.len() as u32;
    let tokens = match lex(alloc, bytes) {
        Ok(tokens) => tokens,
        Err(fault) => return Err(of_text(fault)),
    };
    let tree = match parse(alloc, &tokens, end) {
        Ok(tree) => tree,
        Err(fault) => return Err(of_tokens(fault)),
    };
    let program = match check(alloc, tree, end) {
        Ok(program) => program,
        Err(fault) => return Err(of_kinds(fault)),
    };
    match few_locations(alloc, &program) {
        Ok(()) => Ok(program),
        Err(LocFault::TooMany(count)) => Err(ProgramFault::TooManyLocations(count)),
        Err(LocFault::NoMemory) => Err(ProgramFault::NoMemory),
    }
}

// The fault of a program whose text has this one.
fn of_text(fault: LexFault) -> ProgramFault
    ensures none { fault ≡ lex.NoMemory → result ≡ NoMemory }
    ensures some { fault ≢ lex.NoMemory → result ≡ Lex fault }
{
    match fault {
        LexFault::NoMemory => ProgramFault::NoMemory,
        _ => ProgramFault::Lex(fault),
    }
}

// The fault of a program whose tokens have this one.
fn of_tokens(fault: ParseFault) -> ProgramFault
    ensures none { fault ≡ parse.NoMemory → result ≡ NoMemory }
    ensures some { fault ≢ parse.NoMemory → result ≡ Parse fault }
{
    match fault {
        ParseFault::NoMemory => ProgramFault::NoMemory,
        _ => ProgramFault::Parse(fault),
    }
}

// The fault of a program whose scopes and kinds have this one.
fn of_kinds(fault: TypeFault) -> ProgramFault
    ensures none { fault ≡ kinds.NoMemory → result ≡ NoMemory }
    ensures some { fault ≢ kinds.NoMemory → result ≡ Kinds fault }
{
    match fault {
        TypeFault::NoMemory => ProgramFault::NoMemory,
        _ => ProgramFault::Kinds(fault),
    }
}
