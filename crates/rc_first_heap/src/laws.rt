// The store as a heap keeps it, and the store model.
ghost use Rattle.rc_first_heap.specs.Laws.{ChangesTheStore, ShowsTheStore};

use rc_store::a_heap_keeps_the_store;

/// What is read of a heap is what the store model reads: which regions are live, parents, objects,
/// elements, values, annotations and children.
pub fn the_store_is_shown()
    ensures { ShowsTheStore }
{}

/// A new region, a new object, a write and a deletion do to what a heap keeps what they do to the
/// store.
pub fn the_store_is_changed()
    ensures { ChangesTheStore }
{
    a_heap_keeps_the_store();
}
