//! What may be changed.
ghost use Rattle.std.specs.Prelude.{◌≡◌, Some};
ghost use Rattle.object_heap.specs.Parts.{guard_of};
ghost use Rattle.container_outcomes.specs.Guards as spec;

use object_heap::Heap;
use object_values::Guard;

fn lets_all(guard: &Guard) -> bool
    ensures { result ≡ spec.is_open (Some guard.now) }
{
    match guard {
        Guard::Open => true,
        Guard::Frozen => false,
        Guard::Keys(_) => false,
        Guard::Mapped => false,
    }
}

/// Whether anything of an object may be changed.
pub fn is_open(heap: &Heap, id: u32) -> bool
    ensures { result ≡ spec.is_open (guard_of heap.now.objects id) }
{
    match heap.guard(id) {
        Some(guard) => lets_all(guard),
        None => true,
    }
}
