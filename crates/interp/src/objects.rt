//! Steps on objects and scopes.

ghost use Rattle.std.specs.Prelude.{◌≡◌, ◌<◌, min, length};
ghost use Rattle.interp_code.specs.Plan.{create as create_of, clear as clear_of, lend as lend_of, open_scope as open_of, close_scope as close_of};
ghost use Rattle.interp_code.specs.Flat.{plan_at};
ghost use Rattle.interp.specs.Moves.{StepsTo};

use crate::engine::{Engine, Frame, Moved};
use c_meaning::{End, Stop, make_variable, store_zeros};
use c_tree::{NoMemory, Slot, Ty};
use interp_code::Code;
use std::alloc::Global;

impl<'a> Engine<'a> {
    /// An uninitialised object is made for a variable.
    pub fn create(
        &mut self,
        alloc: Global,
        code: &Code,
        ty: Ty,
        slot: Slot,
        count: usize,
        next: usize,
    ) -> Result<Moved, Stop>
        requires plan { plan_at code.now.nodes self.old.at ≡
            create_of ty slot count (plan_at code.now.nodes next) }
        requires lower { next < min self.old.at (length code.now.nodes) }
        ensures { StepsTo code.now self.old self.new result }
    {
        match make_variable(alloc, ty, slot, count, &mut self.state) {
            Ok(()) => {
                self.at = next;
                Ok(Moved::On)
            }
            Err(stop) => Err(stop),
        }
    }

    /// Zeros are stored in so many cells of a variable, from one on. More cells than can be counted are out of memory.
    pub fn clear(
        &mut self,
        code: &Code,
        slot: Slot,
        from: usize,
        count: usize,
        next: usize,
    ) -> Result<Moved, Stop>
        requires plan { plan_at code.now.nodes self.old.at ≡
            clear_of slot from count (plan_at code.now.nodes next) }
        requires lower { next < min self.old.at (length code.now.nodes) }
        ensures { StepsTo code.now self.old self.new result }
    {
        let Some(to) = from.checked_add(count) else {
            return Err(Stop::Memory(NoMemory));
        };
        match store_zeros(slot, from, to, &mut self.state) {
            Ok(()) => {
                self.at = next;
                Ok(Moved::On)
            }
            Err(stop) => Err(stop),
        }
    }

    /// The number of an array's object is put on the stack.
    pub fn lend(&mut self, code: &Code, slot: Slot, next: usize) -> Result<Moved, Stop>
        requires plan { plan_at code.now.nodes self.old.at ≡
            lend_of slot (plan_at code.now.nodes next) }
        requires lower { next < min self.old.at (length code.now.nodes) }
        ensures { StepsTo code.now self.old self.new result }
    {
        match self.state.object_of(slot) {
            Ok(number) => {
                let Some(value) = i64::try_from(number).ok() else {
                    return Err(Stop::Memory(NoMemory));
                };
                self.values.push(value)?;
                self.at = next;
                Ok(Moved::On)
            }
            Err(stop) => Err(stop),
        }
    }

    /// A scope begins.
    pub fn open_scope(&mut self, code: &Code, next: usize) -> Result<Moved, Stop>
        requires plan { plan_at code.now.nodes self.old.at ≡ open_of (plan_at code.now.nodes next) }
        requires lower { next < min self.old.at (length code.now.nodes) }
        ensures { StepsTo code.now self.old self.new result }
    {
        let count = self.state.object_count();
        self.frames.push(Frame::Scope(count))?;
        self.at = next;
        Ok(Moved::On)
    }

    /// The innermost scope ends.
    pub fn close_scope(&mut self, code: &Code, next: usize) -> Result<Moved, Stop>
        requires plan { plan_at code.now.nodes self.old.at ≡
            close_of (plan_at code.now.nodes next) }
        requires lower { next < min self.old.at (length code.now.nodes) }
        ensures { StepsTo code.now self.old self.new result }
    {
        match self.frames.pop() {
            Some(Frame::Scope(count)) => {
                self.state.cut(count);
                self.at = next;
                Ok(Moved::On)
            }
            Some(Frame::Turn(_turn)) => Err(Stop::Over(End::Trapped)),
            Some(Frame::Tested(_turn)) => Err(Stop::Over(End::Trapped)),
            None => Err(Stop::Over(End::Trapped)),
        }
    }
}
