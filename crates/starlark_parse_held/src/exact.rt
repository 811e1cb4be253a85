//! Vectors without spare capacity.
ghost use Rattle.std.specs.Prelude.{◌≡◌};

/// The most items of a vector that are moved to memory of exactly their size. A longer vector is shrunk in place.
const SHORT: usize = 32;

/// The items of a finished vector, without spare capacity. Those of a short one are moved: its memory is reused for the
/// next vector, while shrinking would leave a fragment.
#[inline(never)]
pub(crate) fn exact<T>(mut items: Vec<T>) -> Vec<T>
    ensures { result.items ≡ items.items }
{
    let len = items.len();
    if len == items.capacity() {
        return items;
    }
    if len > SHORT {
        items.shrink_to_fit();
        return items;
    }
    let Ok(mut room) = Vec::with_capacity(*items.allocator(), len) else {
        return items;
    };
    match room.append(&mut items) {
        Ok(()) => {
            items.destroy_empty();
            room
        }
        Err(_) => {
            room.destroy_empty();
            items
        }
    }
}
