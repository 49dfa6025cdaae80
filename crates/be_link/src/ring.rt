ghost use Rattle.std.specs.Prelude.{◌≡◌, ◌+◌, ◌≤◌, [], ◌++◌, length};

use circular_buffer::HeapCircularBuffer;

/// Moves all items of a ring behind those of another one.
pub(crate) fn move_all<T: Drop>(from: &mut HeapCircularBuffer<T>, to: &mut HeapCircularBuffer<T>)
    requires { length to.old.items + length from.old.items ≤ to.old.capacity }
    ensures to { to.new.items ≡ to.old.items ++ from.old.items }
    ensures room { to.new.capacity ≡ to.old.capacity }
    ensures from { from.new.items ≡ [] }
    ensures from_room { from.new.capacity ≡ from.old.capacity }
{
    while let Some(item) = from.pop_front() {
        let _ = to.push_back(item);
    }
}
