//! Room in a list.
ghost use Rattle.std.specs.Prelude.{◌≡◌, ◌≤◌, ◌<◌, ◌+◌, ◌^◌, OnOk};
ghost use Rattle.std.specs.Vec.{vec_len, vec_capacity};

use std::alloc::AllocError;

/// Makes room for this many more elements. Where it has to, it makes the room an eighth larger, and not twice as large.
pub(crate) fn make_room<T>(list: &mut Vec<T>, more: usize) -> Result<(), AllocError>
    requires { more < 2 ^ 32 }
    ensures items { list.new.items ≡ list.old.items }
    ensures ok { OnOk result (vec_len list.new + more ≤ vec_capacity list.new) }
{
    let len = list.len();
    if more <= list.capacity() - len {
        return Ok(());
    }
    list.reserve_exact(more + len / 8 + 16)
}
