//! Files that are read one at a time.
ghost use Rattle.std.specs.Prelude.{◌≡◌, ℕ, ◌+◌, ◌<◌, ◌≤◌, List, length, Option, Bool, true, IfOk, OnOk, OnErr, IsErr, IsOk, IfSome, IsSome, IsTrue, IsFalse, Some, ◌⊎◌};
ghost use Rattle.fx_io.specs.Faults.{Rose};
ghost use Rattle.fx_io.specs.Held.{Lacks, left_of, Reads, place_after};

use std::error::Error;
use std::fmt;

/// A file could not be opened, or a read or a write failed.
#[derive(Clone, Copy, Debug, PartialEq, Eq, Drop)]
pub struct Failed;

impl fmt::Display for Failed {
    fn fmt<W: fmt::Write>(&self, f: &mut fmt::Formatter<W>) -> fmt::Result {
        write!(f, "an opening, a read or a write failed")
    }
}

impl Error for Failed {}

/// Files with names, of which one at a time is chosen and read from its beginning.
pub trait Files {
    /// How many failures there were. It never falls, and a u64's last value stands for more.
    ghost faults: { Self → ℕ };

    /// Whether a file is chosen.
    ghost chosen: { Self → Bool };

    /// The names and bytes of all files, where they are told.
    ghost held: { Self → Option (List (List ℕ × List ℕ)) };

    /// The name of the chosen file and the place in it, where they are told.
    ghost at: { Self → Option (List ℕ × ℕ) };

    /// No call will fail but for an absent name.
    ghost sure: { Self → Type 0 };

    /// Makes the file of this name the chosen one, at its beginning.
    ///
    /// # Errors
    /// A failure, which `faults` counts, or a name that is known to be absent. No file is chosen then.
    fn choose(&mut self, name: &str) -> Result<(), Failed>
        ensures held { held self.new ≡ held self.old }
        ensures faults { faults self.old ≤ faults self.new }
        ensures ok { OnOk result (IsTrue (chosen self.new)) }
        ensures place { OnOk result (IfSome (held self.old) (λ _. at self.new ≡ Some (name.now, 0))) }
        ensures failed { OnErr result (IsFalse (chosen self.new)) }
        ensures cause { OnErr result (Rose (faults self.old) (faults self.new) ⊎
            Lacks (held self.old) name.now) }
        ensures absent { Lacks (held self.old) name.now → IsErr result }
        ensures sure { sure self.old → sure self.new × OnErr result (Lacks (held self.old) name.now) };

    /// Fills the front of the buffer with the next bytes, and answers their number.
    /// A 0 for a buffer that isn't empty means the end.
    ///
    /// # Errors
    /// A failure, which `faults` counts. The file stays chosen; how far it was read is open.
    fn read(&mut self, buf: &mut [u8]) -> Result<usize, Failed>
        requires { IsTrue (chosen self.old) }
        ensures held { held self.new ≡ held self.old }
        ensures faults { faults self.old ≤ faults self.new }
        ensures chosen { IsTrue (chosen self.new) }
        ensures within { IfOk result (λ n. n ≤ length buf.old) }
        ensures place { IfOk result (λ n. at self.new ≡ place_after (at self.old) n) }
        ensures bytes { IfOk result (λ n. IfSome (left_of (held self.old) (at self.old))
            (λ left. Reads left (left_of (held self.new) (at self.new)) n buf.new)) }
        ensures cause { OnErr result (Rose (faults self.old) (faults self.new)) }
        ensures sure { sure self.old → sure self.new × IsOk result };

    /// Where the files held are told, so is the place in the chosen one.
    ghost told: { (files : Self) → IsTrue (chosen files) → IfSome (held files) (λ _. IsSome (at files)) };
}
