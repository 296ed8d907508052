//! The files, the standard output and the standard error of the host.
ghost use Rattle.std.specs.Prelude.{◌≡◌, ℕ, None, is_some, false};

use crate::files::{Failed, Files};
use crate::sink::Sink;
use std::fs::File;
use std::io::{Read, Write};
use std::marker::Model;
use std::rt::{Stderr, Stdout};

/// The files of the host. Nothing is told of what they hold.
#[derive(Drop)]
pub struct HostFiles<'a, R: std::rt::Files + Drop> {
    runtime: &'a R,
    file: Option<R::File>,
    faults: u64,
}

impl<'a, R: std::rt::Files + Drop> Model for HostFiles<'a, R> {
    ghost use Rattle.std.specs.Prelude.{is_some};
    ghost use Rattle.fx_io.specs.Host.{Desk};

    ghost Value = { Desk };

    ghost view = { λ h. record { faults = h.faults; is_chosen = is_some h.file } };
}

impl<'a, R: std::rt::Files + Drop> HostFiles<'a, R> {
    /// The files that this runtime opens, none of which is chosen.
    pub fn new(runtime: &'a R) -> HostFiles<'a, R>
        ensures { result ≡ record { faults = 0; is_chosen = false } }
    {
        HostFiles {
            runtime,
            file: None,
            faults: 0,
        }
    }

    /// How many failures there were. `u64::MAX` stands for more, too.
    pub fn faults(&self) -> u64
        ensures { result ≡ self.now.faults }
    {
        self.faults
    }
}

impl<'a, R: std::rt::Files + Drop> Files for HostFiles<'a, R> {
    ghost faults = { λ h. h.faults };

    ghost chosen = { λ h. h.is_chosen };

    ghost held = { λ _. None };

    ghost at = { λ _. None };

    ghost sure = { λ _. ⊥ };

    fn choose(&mut self, name: &str) -> Result<(), Failed> {
        self.file = None;
        let Ok(file) = File::open(self.runtime, name) else {
            self.faults = self.faults.saturating_add(1);
            return Err(Failed);
        };
        self.file = Some(file);
        Ok(())
    }

    fn read(&mut self, buf: &mut [u8]) -> Result<usize, Failed> {
        let Some(file) = &mut self.file else {
            unreachable!();
        };
        let Ok(n) = file.read(buf) else {
            self.faults = self.faults.saturating_add(1);
            return Err(Failed);
        };
        Ok(n)
    }

    ghost told = { λ _ _. tt };
}

/// A stream of the host. Nothing is told of what it took: contracts see the number of failures.
#[derive(Drop)]
pub struct HostSink<W: Write + Drop> {
    stream: W,
    faults: u64,
}

impl<W: Write + Drop> Model for HostSink<W> {
    ghost Value = { ℕ };

    ghost view = { λ s. s.faults };
}

impl HostSink<Stdout> {
    /// The standard output.
    pub fn out(runtime: &HostRuntime) -> HostSink<Stdout>
        ensures { result ≡ 0 }
    {
        HostSink::new(runtime.stdout())
    }
}

impl HostSink<Stderr> {
    /// The standard error.
    pub fn err(runtime: &HostRuntime) -> HostSink<Stderr>
        ensures { result ≡ 0 }
    {
        HostSink::new(runtime.stderr())
    }
}

impl<W: Write + Drop> HostSink<W> {
    /// A sink that writes to this stream.
    pub fn new(stream: W) -> HostSink<W>
        ensures { result ≡ 0 }
    {
        HostSink { stream, faults: 0 }
    }

    /// How many failures there were. `u64::MAX` stands for more, too.
    pub fn faults(&self) -> u64
        ensures { result ≡ self.now }
    {
        self.faults
    }
}

impl<W: Write + Drop> Sink for HostSink<W> {
    ghost faults = { λ faults. faults };

    ghost written = { λ _. None };

    ghost room = { λ _. 0 };

    fn write(&mut self, piece: &[u8]) -> Result<usize, Failed> {
        match self.stream.write(piece) {
            Ok(n) if n > 0 || piece.is_empty() => Ok(n),
            _ => {
                self.faults = self.faults.saturating_add(1);
                Err(Failed)
            }
        }
    }
}
