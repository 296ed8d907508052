//! The machine.

ghost use Rattle.std.specs.Prelude.{◌≡◌, ◌+◌, [], ◌∷◌, List, Option, ℤ, pos, IfOk, OnOk, OnErr, IsOk, IsErr};
ghost use Rattle.c_types.specs.Reads.{element_at};
ghost use Rattle.c_meaning.specs.Ends.{outcome_at as outcome_with, first_world};
ghost use Rattle.interp.specs.Future.{code_of, wanted_of, future, state_of, Waits, HasEnded, HasFailed, next_event, next_state, SaysWhether, Continues, Follows};
ghost use Rattle.interp.specs.Seen.{GoesOn, seen, cells_in};

use crate::engine::{Engine, Pause};
use crate::steps::Steps;
use c_meaning::{CALL_LIMIT, End, Outcome, State, finished, outcome_at};
use c_stdio::Test;
use c_tree::{NoMemory, Slot};
use c_types::Reads;
use interp_code::Code;
use std::alloc::Global;
use std::sync::ledger::Ledger;

/// Where a machine comes to.
#[derive(Clone, Copy, Debug, PartialEq, Eq)]
pub enum Event {
    /// A hole is due. The number is the value of an impure condition that stood there.
    Hole(Option<i64>),
    /// The run is over.
    End(Outcome),
}

/// How far a machine is.
#[derive(Clone, Copy, Debug)]
enum Phase {
    /// It can go on.
    Ready,
    /// A hole waits for its value.
    Waiting,
    /// A hole has this value; none is a trap.
    Filled(Option<i64>),
    /// The run is over.
    Over(End),
    /// `main` returned this value.
    Done(i64),
    /// Memory ran out.
    Failed,
}

/// A run of flat code on a test.
#[derive(Drop)]
pub struct Machine<'a> {
    alloc: Global,
    code: &'a Code,
    wanted: u8,
    engine: Engine<'a>,
    phase: Phase,
}

impl<'a> Machine<'a> {
    /// A machine at the start of the code, with so many units.
    ///
    /// # Errors
    ///
    /// `NoMemory` where memory runs out.
    pub fn new(
        alloc: Global,
        code: &'a Code,
        test: &'a Test,
        limit: u64,
    ) -> Result<Machine<'a>, NoMemory>
        ensures follows { IfOk result (λ m. Follows m code.now test.now limit []) }
        ensures state { IfOk result (λ m. state_of m ≡ first_world test.now limit) }
        ensures wanted { IfOk result (λ m. wanted_of m ≡ test.now.status) }
        ensures waits { IfOk result (λ m. Waits m → ⊥) }
        ensures failed { IfOk result (λ m. HasFailed m → ⊥) }
    {
        let engine = Engine {
            room: CALL_LIMIT,
            at: code.start(),
            values: Vec::new(alloc),
            frames: Vec::new(alloc),
            callers: Vec::new(alloc),
            spare: Vec::new(alloc),
            spare_slots: Vec::new(alloc),
            spare_arguments: Vec::new(alloc),
            state: State::new(alloc, test, limit),
        };
        Ok(Machine {
            alloc,
            code,
            wanted: test.status,
            engine,
            phase: Phase::Ready,
        })
    }

    /// Runs to the next hole, or to the end. Where a hole waits already, that is the next one; where the run is over,
    /// its end is.
    ///
    /// # Errors
    ///
    /// `NoMemory` where memory runs out, and from then on.
    pub fn next<L: Ledger>(&mut self, steps: &mut Steps<L>) -> Result<Event, NoMemory>
        ensures again { HasFailed self.old → IsErr result }
        ensures ended { HasEnded self.old → IsOk result }
        ensures failed { OnErr result (HasFailed self.new) }
        ensures event { IfOk result (λ e. e ≡ next_event self.old) }
        ensures waits { IfOk result (λ e. SaysWhether e self.new) }
        ensures future { OnOk result (Continues self.old self.new) }
        ensures state { OnOk result (state_of self.new ≡ next_state self.old) }
        ensures ticks { OnOk result (steps.new + (state_of self.new).units
            ≡ steps.old + (state_of self.old).units) }
    {
        match self.phase {
            Phase::Ready => self.go_on(None, steps),
            Phase::Waiting => self.go_on(None, steps),
            Phase::Filled(value) => self.go_on(Some(value), steps),
            Phase::Over(end) => Ok(Event::End(self.over(end))),
            Phase::Done(value) => Ok(Event::End(finished(self.wanted, &self.engine.state, value))),
            Phase::Failed => Err(NoMemory),
        }
    }

    /// The outcome of a run that is over.
    #[tactic(auto, using(crate::proofs::Machines::over_untaped))]
    fn over(&self, end: End) -> Outcome
        ensures { result ≡ outcome_with (wanted_of self.now) end (state_of self.now) }
    {
        outcome_at(self.wanted, &self.engine.state, end)
    }

    /// Runs on from where the machine is, with the value of the first hole, if it has one.
    fn go_on<L: Ledger>(
        &mut self,
        given: Option<Option<i64>>,
        steps: &mut Steps<L>,
    ) -> Result<Event, NoMemory>
        requires { GoesOn self.old.phase given }
        ensures failed { OnErr result (HasFailed self.new) }
        ensures event { IfOk result (λ e. e ≡ next_event self.old) }
        ensures waits { IfOk result (λ e. SaysWhether e self.new) }
        ensures future { OnOk result (Continues self.old self.new) }
        ensures state { OnOk result (state_of self.new ≡ next_state self.old) }
        ensures ticks { OnOk result (steps.new + (state_of self.new).units
            ≡ steps.old + (state_of self.old).units) }
    {
        match self.engine.run(self.alloc, self.code, given, steps) {
            Ok(Pause::Hole(old)) => {
                self.phase = Phase::Waiting;
                Ok(Event::Hole(old))
            }
            Ok(Pause::Over(end)) => {
                self.phase = Phase::Over(end);
                Ok(Event::End(self.over(end)))
            }
            Ok(Pause::Done(value)) => {
                self.phase = Phase::Done(value);
                Ok(Event::End(finished(self.wanted, &self.engine.state, value)))
            }
            Err(error) => {
                self.phase = Phase::Failed;
                Err(error)
            }
        }
    }

    /// The value of the hole that waits; none is a trap. It takes no memory.
    pub fn fill(&mut self, value: Option<i64>)
        requires { Waits self.old }
        ensures future { (answers : List (Option ℤ)) →
            future self.new answers ≡ future self.old (value ∷ answers) }
        ensures waits { Waits self.new → ⊥ }
        ensures failed { HasFailed self.new → ⊥ }
        ensures state { state_of self.new ≡ state_of self.old }
        ensures code { code_of self.new ≡ code_of self.old }
        ensures wanted { wanted_of self.new ≡ wanted_of self.old }
    {
        self.phase = Phase::Filled(value);
    }

    /// The state of the run, to be read. It takes no memory.
    pub fn view(&self) -> View<'_, 'a>
        ensures { seen result ≡ state_of self.now }
    {
        View {
            state: &self.engine.state,
        }
    }
}

/// The variables of a run, of file scope and of the innermost call, by their slots. The slot of a variable that is out
/// of scope may name nothing, or the object of another variable.
#[derive(Drop)]
pub struct View<'m, 'a> {
    state: &'m State<'a>,
}

impl<'m, 'a> Reads for View<'m, 'a> {
    ghost objects = { λ view slot. cells_in slot (seen view) };

    /// The value of a variable that is one number. None exactly where it is uninitialised, or there is no such variable.
    fn scalar(&self, slot: Slot) -> Option<i64>
        ensures { result ≡ element_at (cells_in slot (seen self.now)) (pos 0) }
    {
        self.element(slot, 0)
    }

    /// The value of an element of a variable. None exactly where it is uninitialised, or there is no such element.
    fn element(&self, slot: Slot, index: i64) -> Option<i64>
        ensures { result ≡ element_at (cells_in slot (seen self.now)) index }
    {
        self.state.value(slot, index)
    }
}
