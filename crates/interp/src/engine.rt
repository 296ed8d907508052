//! What a machine consists of.

use c_meaning::{Argument, End, State};

/// What a part of a function stands in.
#[derive(Clone, Copy, Debug)]
pub enum Frame {
    /// A scope, with the number of objects before it.
    Scope(usize),
    /// A loop, with the place where its turns begin. The unit of this turn isn't taken yet.
    Turn(usize),
    /// A loop, with the place where its turns begin. The unit of this turn is taken.
    Tested(usize),
}

/// A call that waits for the end of another one.
#[derive(Drop)]
pub struct Caller {
    /// How many more calls may be live in it.
    pub room: u32,
    /// The place where it goes on.
    pub at: usize,
    /// Its numbers.
    pub values: Vec<i64>,
    /// What it stands in, the innermost last.
    pub frames: Vec<Frame>,
    /// Whether it wants the value of the other call.
    pub wanted: bool,
    /// Which objects its variables mean.
    pub slots: Vec<Option<usize>>,
}

/// The stacks of a call that is over. They keep their memory for another call.
#[derive(Drop)]
pub struct Stacks {
    /// Numbers.
    pub values: Vec<i64>,
    /// Scopes and loops.
    pub frames: Vec<Frame>,
}

/// The innermost call, the calls outside of it, and the state of the run.
#[derive(Drop)]
pub struct Engine<'a> {
    /// How many more calls may be live.
    pub room: u32,
    /// The place of the next step.
    pub at: usize,
    /// The numbers of the innermost call, the uppermost last.
    pub values: Vec<i64>,
    /// What it stands in, the innermost last.
    pub frames: Vec<Frame>,
    /// The calls outside of it, the innermost last.
    pub callers: Vec<Caller>,
    /// The stacks of calls that are over.
    pub spare: Vec<Stacks>,
    /// Which objects the variables of calls meant that are over; they keep their memory for another call.
    pub spare_slots: Vec<Vec<Option<usize>>>,
    /// The arguments of the last call, which keep their memory for another call.
    pub spare_arguments: Vec<Argument>,
    /// The state of the run.
    pub state: State<'a>,
}

/// What a step comes to.
#[derive(Clone, Copy, Debug)]
pub enum Moved {
    /// The next step.
    On,
    /// A hole is due, and that place follows it; the number is the value of what stood there, where that is evaluated
    /// first.
    Hole(Option<i64>, usize),
    /// `main` returned this value.
    Done(i64),
}

/// Where a run comes to.
#[derive(Clone, Copy, Debug)]
pub enum Pause {
    /// A hole is due that has no value.
    Hole(Option<i64>),
    /// The run is over.
    Over(End),
    /// `main` returned this value.
    Done(i64),
}
