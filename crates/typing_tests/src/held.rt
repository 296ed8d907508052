//! What the variables of a program hold, read through the bound `Reads`.

ghost use Rattle.std.specs.Prelude.{◌≡◌, length, pos, IsSome, IsSomeAnd};
ghost use Rattle.c_types.specs.Reads.{element_at};
ghost use Rattle.typing_tests.specs.Held.{objects_of};

use c_tree::Slot;
use c_types::Reads;

/// Each variable of file scope holds the first value, and each local one is an array of both.
#[derive(Drop)]
struct Held {
    first: Option<i64>,
    second: Option<i64>,
}

impl Reads for Held {
    ghost objects = { λ held. objects_of held.first held.second };

    fn scalar(&self, slot: Slot) -> Option<i64> {
        match slot {
            Slot::Global(_) => self.first,
            Slot::Local(_) | Slot::Unset => None,
        }
    }

    fn element(&self, slot: Slot, index: i64) -> Option<i64> {
        match slot {
            Slot::Global(_) if index == 0 => self.first,
            Slot::Local(_) if index == 0 => self.first,
            Slot::Local(_) if index == 1 => self.second,
            _ => None,
        }
    }
}

/// What a variable that is no array holds, and an element of an array.
fn read<M: Reads>(memory: &M, scalar: Slot, array: Slot, index: i64) -> (Option<i64>, Option<i64>)
    requires scalar { IsSomeAnd (M.objects memory.now scalar) (λ object. length object ≡ 1) }
    requires array { IsSome (M.objects memory.now array) }
    ensures scalar { result.0 ≡ element_at (M.objects memory.now scalar) (pos 0) }
    ensures array { result.1 ≡ element_at (M.objects memory.now array) index }
{
    (memory.scalar(scalar), memory.element(array, index))
}

#[test]
fn variables_are_read(rt: HostRuntime) {
    let held = Held {
        first: Some(7),
        second: None,
    };
    let (x, y) = (Slot::Global(0), Slot::Local(3));
    assert_eq!(rt; read(&held, x, y, 0), (Some(7), Some(7)));
    assert_eq!(rt; read(&held, x, y, 1), (Some(7), None));
    assert_eq!(rt; read(&held, x, y, 2), (Some(7), None));
    assert_eq!(rt; read(&held, x, y, -1), (Some(7), None));
    assert_eq!(rt; read(&held, x, x, 0), (Some(7), Some(7)));
    assert_eq!(rt; read(&held, x, x, 1), (Some(7), None));
    let unset = Held {
        first: None,
        second: Some(-2),
    };
    assert_eq!(rt; read(&unset, x, y, 0), (None, None));
    assert_eq!(rt; read(&unset, x, y, 1), (None, Some(-2)));
}
