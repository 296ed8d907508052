//! What the variables of a program hold at a moment.

ghost use Rattle.std.specs.Prelude.{◌≡◌, List, Option, ℤ, pos, length, IsSome, IsSomeAnd};
ghost use Rattle.c_tree.specs.declared.stmt.Slot.{Slot as Variable};
ghost use Rattle.c_types.specs.Reads.{Object, element_at};

use c_tree::Slot;

/// What the variables of a program hold at a moment. Contracts see the object of each variable.
pub trait Reads {
    /// The object of a variable, if it has one.
    ghost objects: { Self → Variable → Option Object };

    /// What a variable that is no array holds. None exactly where it is uninitialised.
    fn scalar(&self, slot: Slot) -> Option<i64>
        requires { IsSomeAnd (objects self.now slot) (λ object. length object ≡ 1) }
        ensures { result ≡ element_at (objects self.now slot) (pos 0) };

    /// What an element of an array holds. None exactly where it is uninitialised or the index is out of range.
    fn element(&self, slot: Slot, index: i64) -> Option<i64>
        requires { IsSome (objects self.now slot) }
        ensures { result ≡ element_at (objects self.now slot) index };
}
