//! The check of a whole program.

ghost use Rattle.std.specs.Prelude.{◌≡◌, ◌≤◌, Some, [], List, IfOk, IfErr, IfSome, OnOk};
ghost use Rattle.c_tree.specs.Order.{ProgramIn};
ghost use Rattle.c_tree.specs.Views.{program as tree_program};
ghost use Rattle.c_types.specs.declared.fault.Fault.{Fault};
ghost use Rattle.c_types.specs.Evidence.{IsOrdered};
ghost use Rattle.c_types.specs.FaultWords.{place_of};
ghost use Rattle.c_types.specs.Least.{Causes, IsFirst};
ghost use Rattle.c_types.specs.Programs.{program_faults};
ghost use Rattle.c_types.specs.Shown.{tree_of};
ghost use Rattle.c_types.specs.Slots.{resolved};

use crate::fault::{Fault, FaultKind, TypeFault};
use crate::program::program_faults;
use crate::resolve_file::resolve;
use crate::typed::Typed;
use c_tree::Program;
use std::alloc::Global;

impl Fault {
    /// The fault as a refusal of the program.
    fn refusal(self) -> TypeFault
        ensures causes { (fs : List Fault) → IsFirst fs self → Causes result fs }
        ensures place { place_of result ≡ Some self.place }
    {
        let place = self.place;
        match self.kind {
            FaultKind::Unknown => TypeFault::Unknown(place),
            FaultKind::Twice => TypeFault::Twice(place),
            FaultKind::WrongKind => TypeFault::WrongKind(place),
            FaultKind::WrongCount => TypeFault::WrongCount(place),
            FaultKind::NotPlace => TypeFault::NotPlace(place),
            FaultKind::NotConstant => TypeFault::NotConstant(place),
            FaultKind::BadArrayLength => TypeFault::BadArrayLength(place),
            FaultKind::LoopOnly => TypeFault::LoopOnly(place),
            FaultKind::BadFormat => TypeFault::BadFormat(place),
            FaultKind::NoMain => TypeFault::NoMain(place),
        }
    }
}

/// Checks the scopes and kinds of a program (C11 6.2.1, 6.5, 6.7, 6.8, 6.9), whose parts stand in text order
/// in a source of that length, and gives each name the slot of the variable that it denotes. The parts stay in text
/// order.
///
/// # Errors
///
/// The first of the program's faults by place, at one place by the order of `TypeFault`, and `NoMemory` where memory
/// runs out.
pub fn check(alloc: Global, program: Program, end: u32) -> Result<Typed, TypeFault>
    requires ordered { ProgramIn 0 end (tree_program program) }
    ensures accepted { OnOk result (program_faults (tree_program program) end ≡ []) }
    ensures resolved { IfOk result (λ typed. tree_of typed ≡ resolved (tree_program program)) }
    ensures ordered { IfOk result (λ typed. IsOrdered (tree_of typed)) }
    ensures refused { IfErr result (λ fault.
        Causes fault (program_faults (tree_program program) end)) }
    ensures placed { IfErr result (λ fault. IfSome (place_of fault) (λ place. place ≤ end)) }
{
    let found = program_faults(alloc, &program.externals, end)?;
    match found.fault {
        Some(fault) => Err(fault.refusal()),
        None => {
            let mut checked = program;
            resolve(alloc, &mut checked)?;
            Ok(Typed::new(checked))
        }
    }
}
