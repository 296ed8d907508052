//! A sink in memory.
ghost use Rattle.std.specs.Prelude.{◌≡◌, ◌+◌, ◌<◌, ◌≤◌, ◌↔◌, ◌++◌, [], length, take, MatchResult, IfOk, OnErr, IsErr, Some};
ghost use Rattle.fx_io.specs.Faults.{Rose};
ghost use Rattle.fx_io.specs.Plan.{first_plan, after_call, after_failure};
ghost use Rattle.fx_io.specs.Room.{Refuses, sure_room};

use crate::NoMemory;
use crate::files::Failed;
use crate::memory::plan::FailurePlan;
use crate::sink::Sink;
use std::alloc::Global;
use std::marker::Model;

/// A sink in memory with limited room, whose writes are numbered from 0.
#[derive(Drop)]
pub struct MemSink {
    bytes: Vec<u8>,
    room: usize,
    chunk: usize,
    plan: FailurePlan,
}

impl Model for MemSink {
    ghost use Rattle.fx_io.specs.Shelf.{Tray};

    ghost Value = { Tray };

    ghost use Rattle.fx_io.specs.MemorySink.{tray_of, IsInOrder};

    ghost view = { tray_of };

    ghost invariant = { IsInOrder };
}

impl MemSink {
    /// An empty sink with room for `room` bytes, of which a write takes at most `chunk`.
    /// The writes whose numbers stand in `failing` fail. All its memory is taken here.
    ///
    /// # Errors
    /// Want of memory.
    pub fn new(
        alloc: Global,
        room: usize,
        failing: Vec<u64>,
        chunk: usize,
    ) -> Result<MemSink, NoMemory>
        requires { 0 < chunk }
        ensures { IfOk result (λ sink. sink ≡ record {
          written = [];
          room = room;
          chunk = chunk;
          plan = first_plan failing.items;
        }) }
    {
        let bytes = Vec::with_capacity(alloc, room)?;
        Ok(MemSink {
            bytes,
            room,
            chunk,
            plan: FailurePlan::new(failing),
        })
    }

    /// All bytes that were written, in order.
    pub fn written(&self) -> &[u8]
        ensures { result.now ≡ self.now.written }
    {
        &self.bytes
    }

    /// How many failures there were. `u64::MAX` stands for more, too.
    pub fn faults(&self) -> u64
        ensures { result ≡ self.now.plan.faults }
    {
        self.plan.faults()
    }
}

impl Sink for MemSink {
    ghost faults = { λ s. s.plan.faults };

    ghost written = { λ s. Some s.written };

    ghost room = { sure_room };

    fn write(&mut self, piece: &[u8]) -> Result<usize, Failed>
        ensures chunk { self.new.chunk ≡ self.old.chunk }
        ensures fails { IsErr result ↔ Refuses self.old piece.now }
        ensures plan { MatchResult result (λ _. self.new.plan ≡ after_call self.old.plan)
            (λ _. self.new.plan ≡ after_failure self.old.plan) }
        ensures bytes { MatchResult result
            (λ n. self.new.written ≡ self.old.written ++ take n piece.now)
            (λ _. self.new.written ≡ self.old.written) }
        ensures left { MatchResult result (λ n. self.new.room + n ≡ self.old.room)
            (λ _. self.new.room ≡ self.old.room) }
        ensures most { IfOk result (λ n. n ≤ self.old.chunk) }
        ensures within { IfOk result (λ n. n ≤ length piece.now) }
        ensures some { IfOk result (λ n. 0 < length piece.now → 0 < n) }
        ensures faults { self.old.plan.faults ≤ self.new.plan.faults }
        ensures cause { OnErr result (Rose self.old.plan.faults self.new.plan.faults) }
    {
        let left = self.room - self.bytes.len();
        let is_full = !piece.is_empty() && left == 0;
        self.plan.begin_call_unless(is_full)?;
        let n = piece.len().min(self.chunk).min(left);
        if self.bytes.extend_from_slice(&piece[..n]).is_err() {
            unreachable!();
        }
        Ok(n)
    }
}
