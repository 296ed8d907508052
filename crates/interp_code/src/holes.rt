//! Where the hole is.

ghost use Rattle.std.specs.Prelude.{◌≡◌};
ghost use Rattle.interp_code.specs.Holed.{is_hole_at};

use c_location::is_at;
use c_tree::{Loc, LocKind, Span};

/// Whether the hole is the part of that kind with this text.
pub fn stands(hole: Option<Loc>, kind: LocKind, span: Span) -> bool
    ensures { result ≡ is_hole_at hole kind span }
{
    match hole {
        Some(hole) => is_at(&hole, kind, span),
        None => false,
    }
}
