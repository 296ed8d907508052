//! Sinks that take bytes, one piece after another.
ghost use Rattle.std.specs.Prelude.{◌≡◌, ℕ, ◌+◌, ◌<◌, ◌≤◌, List, length, take, Option, IfOk, IsOkAnd, OnErr};
ghost use Rattle.fx_io.specs.Faults.{Rose};
ghost use Rattle.fx_io.specs.Written.{appended};

use crate::files::Failed;

/// Takes bytes, one piece after another.
pub trait Sink {
    /// How many failures there were. It never falls, and a u64's last value stands for more.
    ghost faults: { Self → ℕ };

    /// The bytes so far, where they are told.
    ghost written: { Self → Option (List ℕ) };

    /// How many bytes can surely be written with no failure.
    ghost room: { Self → ℕ };

    /// Appends the front of the piece, and answers how many bytes it took:
    /// at least one of a piece that isn't empty. The count of failures is as it was then.
    ///
    /// # Errors
    /// A failure, which `faults` counts. Nothing is appended then.
    fn write(&mut self, piece: &[u8]) -> Result<usize, Failed>
        ensures faults { faults self.old ≤ faults self.new }
        ensures within { IfOk result (λ n. n ≤ length piece.now) }
        ensures some { IfOk result (λ n. 0 < length piece.now → 0 < n) }
        ensures bytes { IfOk result (λ n. written self.new ≡
            appended (written self.old) (take n piece.now)) }
        ensures steady { IfOk result (λ _. faults self.new ≡ faults self.old) }
        ensures failed { OnErr result (written self.new ≡ written self.old) }
        ensures cause { OnErr result (Rose (faults self.old) (faults self.new)) }
        ensures room { 0 < length piece.now → length piece.now ≤ room self.old → IsOkAnd result (λ n.
            (faults self.new ≡ faults self.old) × (room self.new + n ≡ room self.old)) };
}
