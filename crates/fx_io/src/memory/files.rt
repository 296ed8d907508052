//! Files in memory.
ghost use Rattle.std.specs.Prelude.{◌≡◌, ◌+◌, ◌<◌, ◌≤◌, ◌↔◌, ◌⊎◌, ℕ, [], List, length, take, drop, map, MatchOption, MatchBool, MatchResult, IfOk, IfSome, OnOk, OnErr, IsErr, IsTrue, is_some, is_err, None, Some};
ghost use Rattle.fx_io.specs.Faults.{Rose};
ghost use Rattle.fx_io.specs.Held.{file_named, left_at, place_after, Lacks, Reads};
ghost use Rattle.fx_io.specs.Named.{name_and_bytes, IsFoundAt};
ghost use Rattle.fx_io.specs.Plan.{first_plan, fails_next, after_next};

use crate::files::{Failed, Files};
use crate::memory::plan::FailurePlan;
use std::marker::Model;

/// Files in memory, whose calls of `choose` and `read` are numbered together from 0.
#[derive(Drop)]
pub struct MemFiles {
    files: Vec<(String, Vec<u8>)>,
    chosen: Option<Place>,
    chunk: usize,
    plan: FailurePlan,
}

/// The index of a file, and how many of its bytes were read.
#[derive(Clone, Copy)]
struct Place {
    file: usize,
    read: usize,
}

impl Model for MemFiles {
    ghost use Rattle.fx_io.specs.Shelf.{Shelf};

    ghost Value = { Shelf };

    ghost use Rattle.fx_io.specs.MemoryFiles.{shelf_of, IsInOrder};

    ghost view = { shelf_of };

    ghost invariant = { IsInOrder };
}

impl MemFiles {
    /// These files by name, of which a read gives at most `chunk` bytes.
    /// The calls whose numbers stand in `failing` fail.
    pub fn new(files: Vec<(String, Vec<u8>)>, failing: Vec<u64>, chunk: usize) -> MemFiles
        requires { 0 < chunk }
        ensures { result ≡ record {
          files = map name_and_bytes files.items;
          at = None;
          chunk = chunk;
          plan = first_plan failing.items;
        } }
    {
        MemFiles {
            files,
            chosen: None,
            chunk,
            plan: FailurePlan::new(failing),
        }
    }

    /// How many failures there were. `u64::MAX` stands for more, too.
    pub fn faults(&self) -> u64
        ensures { result ≡ self.now.plan.faults }
    {
        self.plan.faults()
    }
}

impl Files for MemFiles {
    ghost faults = { λ m. m.plan.faults };

    ghost chosen = { λ m. is_some m.at };

    ghost held = { λ m. Some m.files };

    ghost at = { λ m. m.at };

    ghost sure = { λ m. m.plan.failing ≡ [] };

    fn choose(&mut self, name: &str) -> Result<(), Failed>
        ensures files { self.new.files ≡ self.old.files }
        ensures chunk { self.new.chunk ≡ self.old.chunk }
        ensures plan { self.new.plan ≡ after_next self.old.plan }
        ensures fails { MatchBool (fails_next self.old.plan) (IsErr result)
            (IsErr result ↔ (file_named self.old.files name.now ≡ None)) }
        ensures ok { OnOk result (self.new.at ≡ Some (name.now, 0)) }
        ensures err { OnErr result (self.new.at ≡ None) }
        ensures faults { self.old.plan.faults ≤ self.new.plan.faults }
        ensures cause { OnErr result (Rose self.old.plan.faults self.new.plan.faults
            ⊎ Lacks (Some self.old.files) name.now) }
    {
        self.chosen = None;
        self.plan.begin_call()?;
        let Some(file) = find(&self.files, name) else {
            return Err(Failed);
        };
        self.chosen = Some(Place { file, read: 0 });
        Ok(())
    }

    fn read(&mut self, buf: &mut [u8]) -> Result<usize, Failed>
        requires { IsTrue (is_some self.old.at) }
        ensures files { self.new.files ≡ self.old.files }
        ensures chunk { self.new.chunk ≡ self.old.chunk }
        ensures plan { self.new.plan ≡ after_next self.old.plan }
        ensures fails { is_err result ≡ fails_next self.old.plan }
        ensures most { IfOk result (λ n. n ≤ self.old.chunk) }
        ensures within { IfOk result (λ n. n ≤ length buf.old) }
        ensures place { MatchResult result (λ n. self.new.at ≡ place_after self.old.at n)
            (λ _. self.new.at ≡ self.old.at) }
        ensures bytes { IfOk result (λ n. IfSome (left_at self.old.files self.old.at)
            (λ left. Reads left (left_at self.new.files self.new.at) n buf.new)) }
        ensures faults { self.old.plan.faults ≤ self.new.plan.faults }
        ensures cause { OnErr result (Rose self.old.plan.faults self.new.plan.faults) }
    {
        self.plan.begin_call()?;
        let Some(place) = &mut self.chosen else {
            unreachable!();
        };
        let n = copy_piece(&self.files[place.file].1, place.read, self.chunk, buf);
        place.read += n;
        Ok(n)
    }

    ghost told = { λ m is. is };
}

// The index of the first file of this name.
fn find(files: &[(String, Vec<u8>)], name: &str) -> Option<usize>
    ensures { MatchOption result (file_named (map name_and_bytes files.now) name.now ≡ None)
        (IsFoundAt files.now name.now) }
{
    'each: for (i, file) in files.iter().enumerate() {
        if file.0.as_str() == name {
            return Some(i);
        }
    }
    None
}

// Copies the bytes behind the first `read`, as many as fit and at most `chunk`.
// Answers their number.
fn copy_piece(bytes: &[u8], read: usize, chunk: usize, buf: &mut [u8]) -> usize
    requires read { read ≤ length bytes.now }
    requires chunk { 0 < chunk }
    ensures bytes { take result buf.new ≡ take result (drop read bytes.now) }
    ensures within { read + result ≤ length bytes.now }
    ensures fits { result ≤ length buf.old }
    ensures most { result ≤ chunk }
    ensures end { result ≡ 0 → 0 < length buf.old → read ≡ length bytes.now }
{
    let left = &bytes[read..];
    let n = left.len().min(chunk).min(buf.len());
    buf[..n].copy_from_slice(&left[..n]);
    n
}
