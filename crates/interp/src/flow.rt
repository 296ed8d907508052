//! Steps that take units, and where they lead.

ghost use Rattle.std.specs.Prelude.{◌≡◌, ◌<◌, min, length};
ghost use Rattle.interp_code.specs.Plan.{trapped, spend as spend_of, fork as fork_of, loop as loop_of, test as test_of, again as again_of, leave as leave_of};
ghost use Rattle.interp_code.specs.Flat.{plan_at};
ghost use Rattle.interp.specs.Moves.{StepsTo, MovesTo};

use crate::engine::{Engine, Frame, Moved};
use crate::steps::Steps;
use c_meaning::{End, Stop};
use interp_code::Code;
use std::sync::ledger::Ledger;

impl<'a> Engine<'a> {
    /// What has no meaning.
    pub fn trap(&mut self, code: &Code) -> Result<Moved, Stop>
        requires plan { plan_at code.now.nodes self.old.at ≡ trapped }
        ensures { StepsTo code.now self.old self.new result }
    {
        Err(Stop::Over(End::Trapped))
    }

    /// A unit is taken.
    pub fn spend<L: Ledger>(
        &mut self,
        code: &Code,
        next: usize,
        steps: &mut Steps<L>,
    ) -> Result<Moved, Stop>
        requires plan { plan_at code.now.nodes self.old.at ≡
            spend_of (plan_at code.now.nodes next) }
        requires lower { next < min self.old.at (length code.now.nodes) }
        ensures { MovesTo code.now self.old self.new steps.old steps.new result }
    {
        match self.state.take_unit() {
            Ok(()) => {
                steps.tick();
                self.at = next;
                Ok(Moved::On)
            }
            Err(stop) => Err(stop),
        }
    }

    /// The upper value is taken, and decides what follows.
    pub fn fork(&mut self, code: &Code, zero: usize, other: usize) -> Result<Moved, Stop>
        requires plan { plan_at code.now.nodes self.old.at ≡
            fork_of (plan_at code.now.nodes zero) (plan_at code.now.nodes other) }
        requires zero { zero < min self.old.at (length code.now.nodes) }
        requires other { other < min self.old.at (length code.now.nodes) }
        ensures { StepsTo code.now self.old self.new result }
    {
        let Some(value) = self.values.pop() else {
            return Err(Stop::Over(End::Trapped));
        };
        if value == 0 {
            self.at = zero;
            return Ok(Moved::On);
        }
        self.at = other;
        Ok(Moved::On)
    }

    /// A loop begins with its first turn.
    pub fn begin_loop(&mut self, code: &Code, turn: usize) -> Result<Moved, Stop>
        requires plan { plan_at code.now.nodes self.old.at ≡ loop_of (plan_at code.now.nodes turn) }
        requires lower { turn < min self.old.at (length code.now.nodes) }
        ensures { StepsTo code.now self.old self.new result }
    {
        self.frames.push(Frame::Turn(turn))?;
        self.at = turn;
        Ok(Moved::On)
    }

    /// The unit of a turn is taken.
    pub fn test<L: Ledger>(
        &mut self,
        code: &Code,
        next: usize,
        steps: &mut Steps<L>,
    ) -> Result<Moved, Stop>
        requires plan { plan_at code.now.nodes self.old.at ≡ test_of (plan_at code.now.nodes next) }
        requires lower { next < min self.old.at (length code.now.nodes) }
        ensures { MovesTo code.now self.old self.new steps.old steps.new result }
    {
        match self.frames.pop() {
            Some(Frame::Turn(turn)) => match self.state.take_unit() {
                Ok(()) => {
                    steps.tick();
                    self.frames.push(Frame::Tested(turn))?;
                    self.at = next;
                    Ok(Moved::On)
                }
                Err(stop) => Err(stop),
            },
            Some(Frame::Scope(_count)) => Err(Stop::Over(End::Trapped)),
            Some(Frame::Tested(_turn)) => Err(Stop::Over(End::Trapped)),
            None => Err(Stop::Over(End::Trapped)),
        }
    }

    /// The next turn of the innermost loop begins.
    pub fn again(&mut self, code: &Code) -> Result<Moved, Stop>
        requires plan { plan_at code.now.nodes self.old.at ≡ again_of }
        ensures { StepsTo code.now self.old self.new result }
    {
        match self.frames.pop() {
            Some(Frame::Tested(turn)) => {
                self.frames.push(Frame::Turn(turn))?;
                self.at = turn;
                Ok(Moved::On)
            }
            Some(Frame::Scope(_count)) => Err(Stop::Over(End::Trapped)),
            Some(Frame::Turn(_turn)) => Err(Stop::Over(End::Trapped)),
            None => Err(Stop::Over(End::Trapped)),
        }
    }

    /// The innermost loop ends.
    pub fn leave(&mut self, code: &Code, next: usize) -> Result<Moved, Stop>
        requires plan { plan_at code.now.nodes self.old.at ≡
            leave_of (plan_at code.now.nodes next) }
        requires lower { next < min self.old.at (length code.now.nodes) }
        ensures { StepsTo code.now self.old self.new result }
    {
        match self.frames.pop() {
            Some(Frame::Turn(_turn)) => {
                self.at = next;
                Ok(Moved::On)
            }
            Some(Frame::Tested(_turn)) => {
                self.at = next;
                Ok(Moved::On)
            }
            Some(Frame::Scope(_count)) => Err(Stop::Over(End::Trapped)),
            None => Err(Stop::Over(End::Trapped)),
        }
    }
}
