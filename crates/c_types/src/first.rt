//! The first of some faults, which is the one that is reported.

ghost use Rattle.std.specs.Prelude.{◌≡◌, []};
ghost use Rattle.c_types.specs.Least.{fault, fault_if, order, comes_first, earlier, least};

use crate::fault::{Fault, FaultKind};
use c_tree::Span;

impl FaultKind {
    /// Where the kind stands in the order in which faults at one place are reported.
    fn order(self) -> u8
        ensures { result ≡ order self }
    {
        match self {
            FaultKind::Unknown => 0,
            FaultKind::Twice => 1,
            FaultKind::WrongKind => 2,
            FaultKind::WrongCount => 3,
            FaultKind::NotPlace => 4,
            FaultKind::NotConstant => 5,
            FaultKind::BadArrayLength => 6,
            FaultKind::LoopOnly => 7,
            FaultKind::BadFormat => 8,
            FaultKind::NoMain => 9,
        }
    }
}

impl Fault {
    /// Whether this fault is reported rather than the other, or is the same.
    fn comes_first(self, other: Fault) -> bool
        ensures { result ≡ comes_first self other }
    {
        self.place < other.place
            || self.place == other.place && self.kind.order() <= other.kind.order()
    }
}

/// The first of some faults, if there are any.
#[derive(Clone, Copy, Debug, PartialEq, Eq)]
pub struct First {
    pub fault: Option<Fault>,
}

impl First {
    /// The first of no faults.
    #[tactic(auto, unfolding(crate::specs::Least::least))]
    pub fn none() -> First
        ensures { result.fault ≡ least [] }
    {
        First { fault: None }
    }

    /// The one fault, at the first byte of a part.
    #[tactic(auto, unfolding(crate::specs::Least::least, crate::specs::Least::fault))]
    pub fn of(kind: FaultKind, span: Span) -> First
        ensures { result.fault ≡ least (fault kind span) }
    {
        let place = span.from;
        First {
            fault: Some(Fault { place, kind }),
        }
    }

    /// The same where the test holds, and else none.
    pub fn of_if(holds: bool, kind: FaultKind, span: Span) -> First
        ensures { result.fault ≡ least (fault_if holds kind span) }
    {
        if holds {
            First::of(kind, span)
        } else {
            First::none()
        }
    }

    /// The first of these faults and others.
    pub fn and(self, others: First) -> First
        ensures { result.fault ≡ earlier self.fault others.fault }
    {
        match (self.fault, others.fault) {
            (None, _) => others,
            (Some(_), None) => self,
            (Some(a), Some(b)) => { if a.comes_first(b) { self } else { others } }
        }
    }
}
