//! Steps at a hole.

ghost use Rattle.std.specs.Prelude.{◌≡◌, ◌<◌, min, length, None, Some, IfOk};
ghost use Rattle.interp_code.specs.Plan.{ask as ask_of, ask_after as ask_after_of};
ghost use Rattle.interp_code.specs.Flat.{plan_at};
ghost use Rattle.interp.specs.Moves.{StepsTo, Asks, Answers};

use crate::engine::{Engine, Moved};
use c_meaning::{End, Stop};
use c_tree::NoMemory;
use interp_code::Code;

impl<'a> Engine<'a> {
    /// A hole is due.
    pub fn ask(&mut self, code: &Code, next: usize) -> Result<Moved, Stop>
        requires plan { plan_at code.now.nodes self.old.at ≡ ask_of (plan_at code.now.nodes next) }
        requires lower { next < min self.old.at (length code.now.nodes) }
        ensures { StepsTo code.now self.old self.new result }
    {
        Ok(Moved::Hole(None, next))
    }

    /// A hole is due, after the upper value.
    pub fn ask_after(&mut self, code: &Code, next: usize) -> Result<Moved, Stop>
        requires plan { plan_at code.now.nodes self.old.at ≡
            ask_after_of (plan_at code.now.nodes next) }
        requires lower { next < min self.old.at (length code.now.nodes) }
        ensures { StepsTo code.now self.old self.new result }
    {
        let depth = self.values.len();
        if depth == 0 {
            return Err(Stop::Over(End::Trapped));
        }
        Ok(Moved::Hole(Some(self.values[depth - 1]), next))
    }

    /// The value of a hole that is due where no other value stands in its place.
    fn answer(&mut self, code: &Code, next: usize, value: i64) -> Result<(), NoMemory>
        requires asks { Asks code.now self.old None next }
        requires lower { next < min self.old.at (length code.now.nodes) }
        ensures { IfOk result (λ _. Answers code.now value self.old self.new) }
    {
        self.values.push(value)?;
        self.at = next;
        Ok(())
    }

    /// The value of a hole that is due, in the place of the upper value.
    fn replace(&mut self, code: &Code, old: i64, next: usize, value: i64) -> Result<(), NoMemory>
        requires asks { Asks code.now self.old (Some old) next }
        requires lower { next < min self.old.at (length code.now.nodes) }
        ensures { IfOk result (λ _. Answers code.now value self.old self.new) }
    {
        match self.values.pop() {
            Some(_old) => {
                self.values.push(value)?;
                self.at = next;
                Ok(())
            }
            None => Ok(()),
        }
    }

    /// The value of a hole that is due.
    pub fn take(
        &mut self,
        code: &Code,
        old: Option<i64>,
        next: usize,
        value: i64,
    ) -> Result<(), NoMemory>
        requires asks { Asks code.now self.old old next }
        requires lower { next < min self.old.at (length code.now.nodes) }
        ensures { IfOk result (λ _. Answers code.now value self.old self.new) }
    {
        match old {
            None => self.answer(code, next, value),
            Some(old) => self.replace(code, old, next, value),
        }
    }
}
