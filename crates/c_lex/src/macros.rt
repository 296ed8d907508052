//! The macros that are defined, and their values.

ghost use Rattle.std.specs.Prelude.{◌≡◌, ℤ, ◌∷◌, IfOk, IfErr, OnOk, None};
ghost use Rattle.c_lex.specs.declared.fault.LexFault.TheVariants as fault;
ghost use Rattle.c_lex.specs.Bytes.{Bytes};
ghost use Rattle.c_lex.specs.Reading.{value_in, Knows};
ghost use Rattle.c_lex.specs.Tokens.{Macros, first_macros};

use crate::fault::LexFault;
use c_tree::Text;
use std::alloc::Global;
use std::collections::BTreeMap;

/// Macros by their names, and their values.
#[derive(Drop)]
pub struct MacroMap {
    values: BTreeMap<Vec<u8>, i64>,
}

impl MacroMap {
    /// A map with `EOF` alone.
    pub fn new(alloc: Global) -> Result<MacroMap, LexFault>
        ensures ok { IfOk result (λ map. Knows map first_macros) }
        ensures err { IfErr result (λ f. f ≡ fault.NoMemory) }
    {
        let mut values = BTreeMap::new(alloc);
        let name = b"EOF".to_vec(alloc)?;
        values.insert(name, -1)?;
        Ok(MacroMap { values })
    }

    /// The value of the macro of that name, if it is one.
    pub fn value(&self, name: &[u8]) -> Option<i64>
        ensures { result ≡ value_in self.now name.now }
    {
        self.values.get(name).copied()
    }

    /// Defines a macro.
    pub fn define(&mut self, name: Text, value: i64) -> Result<(), LexFault>
        ensures err { IfErr result (λ f. f ≡ fault.NoMemory) }
        ensures ok { OnOk result
            ((m : Macros) → Knows self.old m → Knows self.new ((name, value) ∷ m)) }
    {
        self.values.insert(name.into_bytes(), value)?;
        Ok(())
    }
}
