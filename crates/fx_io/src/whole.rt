//! Files read whole, and bytes written whole.
ghost use Rattle.std.specs.Prelude.{◌≡◌, ℕ, ◌+◌, ◌<◌, ◌≤◌, List, length, take, IsTrue, IfOk, OnOk, IsOk, OnErr, IsErrOf, IfErr, IfSome};
ghost use Rattle.fx_io.specs.Faults.{Rose};
ghost use Rattle.fx_io.specs.Held.{IsContent, IsLeft, Lacks, left_of};
ghost use Rattle.fx_io.specs.Ends.{ReadEnds, LeftEnds, OnFault};
ghost use Rattle.fx_io.specs.Written.{appended};

use crate::NoMemory;
use crate::files::{Failed, Files};
use crate::sink::Sink;
use std::alloc::Global;
use std::error::Error;
use std::fmt;

/// The most bytes that one read asks for.
const PIECE: usize = 4096;

/// Why a file was not read whole.
#[derive(Clone, Copy, Debug, PartialEq, Eq, Drop)]
pub enum ReadEnd {
    /// The file could not be opened, or a read failed.
    Fault,
    /// The file has more than this many bytes, the most that were allowed.
    TooLong(usize),
    /// There was no memory for its bytes.
    NoMemory,
}

impl fmt::Display for ReadEnd {
    fn fmt<W: fmt::Write>(&self, f: &mut fmt::Formatter<W>) -> fmt::Result {
        match self {
            ReadEnd::Fault => write!(f, "an opening or a read failed"),
            ReadEnd::TooLong(cap) => write!(f, "the file has more than {cap} bytes"),
            ReadEnd::NoMemory => write!(f, "out of memory"),
        }
    }
}

impl Error for ReadEnd {}

impl From<Failed> for ReadEnd {
    ghost use Rattle.fx_io.specs.declared.whole.ReadEnd.TheVariants.{Fault};

    ghost from_gives = { λ _ end. end ≡ Fault };

    fn from(_failed: Failed) -> ReadEnd {
        ReadEnd::Fault
    }
}

impl From<NoMemory> for ReadEnd {
    ghost use Rattle.fx_io.specs.declared.whole.ReadEnd.TheVariants.{NoMemory};

    ghost from_gives = { λ _ end. end ≡ NoMemory };

    fn from(_error: NoMemory) -> ReadEnd {
        ReadEnd::NoMemory
    }
}

/// Reads the file of this name whole, where it has at most `cap` bytes.
///
/// # Errors
/// `Fault` for a failure or a name that is known to be absent, `TooLong(cap)` where more than `cap`
/// bytes came, and `NoMemory`.
pub fn read_whole<F: Files>(
    alloc: Global,
    files: &mut F,
    name: &str,
    cap: usize,
) -> Result<Vec<u8>, ReadEnd>
    ensures held { F.held files.new ≡ F.held files.old }
    ensures faults { F.faults files.old ≤ F.faults files.new }
    ensures content { IfOk result (λ v. IsContent (F.held files.old) name.now v.items) }
    ensures within { IfOk result (λ v. length v.items ≤ cap) }
    ensures ends { IfErr result
        (ReadEnds (F.held files.old) name.now cap (F.faults files.old) (F.faults files.new)) }
    ensures absent { Lacks (F.held files.old) name.now → IsErrOf result ReadEnd.Fault }
    ensures sure { F.sure files.old → F.sure files.new
        × IfErr result (λ end. OnFault end (Lacks (F.held files.old) name.now)) }
{
    files.choose(name)?;
    read_chosen(alloc, files, cap)
}

/// Writes all of the bytes, and takes no memory. After a failed write no other is tried.
///
/// # Errors
/// A write that failed, which the sink's `faults` counts. A front of the bytes was written then, and not all.
pub fn write_whole<S: Sink>(sink: &mut S, bytes: &[u8]) -> Result<(), Failed>
    ensures faults { S.faults sink.old ≤ S.faults sink.new }
    ensures ok { OnOk result (S.written sink.new ≡ appended (S.written sink.old) bytes.now) }
    ensures steady { OnOk result (S.faults sink.new ≡ S.faults sink.old) }
    ensures failed { OnErr result ((n : ℕ) × (n < length bytes.now)
        × (S.written sink.new ≡ appended (S.written sink.old) (take n bytes.now))) }
    ensures cause { OnErr result (Rose (S.faults sink.old) (S.faults sink.new)) }
    ensures room { length bytes.now ≤ S.room sink.old → IsOk result ×
        (S.faults sink.new ≡ S.faults sink.old)
        × (S.room sink.new + length bytes.now ≡ S.room sink.old) }
{
    let mut from = 0;
    'pieces: while from < bytes.len() {
        from += sink.write(&bytes[from..])?;
    }
    Ok(())
}

// Reads what is left of the chosen file, where that has at most `cap` bytes.
fn read_chosen<F: Files>(alloc: Global, files: &mut F, cap: usize) -> Result<Vec<u8>, ReadEnd>
    requires { IsTrue (F.chosen files.old) }
    ensures held { F.held files.new ≡ F.held files.old }
    ensures faults { F.faults files.old ≤ F.faults files.new }
    ensures bytes { IfOk result (λ v. IsLeft (left_of (F.held files.old) (F.at files.old)) v.items) }
    ensures within { IfOk result (λ v. length v.items ≤ cap) }
    ensures ends { IfErr result (LeftEnds (left_of (F.held files.old) (F.at files.old)) cap
        (F.faults files.old) (F.faults files.new)) }
    ensures sure { F.sure files.old → F.sure files.new × IfErr result (λ end. OnFault end ⊥) }
{
    let mut bytes = Vec::new(alloc);
    let mut buf = [0u8; PIECE];
    'pieces: while bytes.len() <= cap {
        let n = files.read(&mut buf)?;
        if n == 0 {
            return Ok(bytes);
        }
        bytes.extend_from_slice(&buf[..n])?;
    }
    Err(ReadEnd::TooLong(cap))
}
