//! Locations that are counted, of which the first few are kept.

ghost use Rattle.std.specs.Prelude.{◌≡◌, OnOk};
ghost use Rattle.c_location.specs.Tally.{Found, with_one, none_found};

use c_tree::{Loc, LocKind, NoMemory, Span};
use std::alloc::Global;
use std::marker::Model;

/// How many locations are kept.
pub const LIMIT: usize = 4096;

/// The locations found so far: the first of them, and how many there are.
#[derive(Drop)]
pub struct Tally {
    kept: Vec<Loc>,
    count: u32,
}

impl Model for Tally {
    ghost use Rattle.c_location.specs.Tally.{Found};

    ghost Value = { Found };

    ghost view = { λ t. record { kept = t.kept.items; count = t.count } };
}

impl Tally {
    /// Nothing is found yet. It takes no memory.
    pub fn new(alloc: Global) -> Tally
        ensures { result ≡ none_found }
    {
        Tally {
            kept: Vec::new(alloc),
            count: 0,
        }
    }

    /// How many locations were found. It takes no memory.
    pub fn count(&self) -> u32
        ensures { result ≡ self.now.count }
    {
        self.count
    }

    /// The locations that were kept. It takes no memory.
    pub fn into_kept(self) -> Vec<Loc>
        ensures { result.items ≡ self.kept }
    {
        let Tally { kept, .. } = self;
        kept
    }

    /// Counts one more location, and keeps it if there is room.
    pub fn add(&mut self, kind: LocKind, at: Span) -> Result<(), NoMemory>
        ensures { OnOk result (self.new ≡ with_one self.old (record { kind = kind; at = at })) }
    {
        self.count = self.count.saturating_add(1);
        if self.kept.len() >= LIMIT {
            return Ok(());
        }
        self.kept.push(Loc { kind, at })?;
        Ok(())
    }
}
