// What a heap keeps, and the store model.
ghost use Rattle.rc_store.specs.Laws.{KeepsTheStore};

/// What a heap keeps of objects, without what pointers point to, is enough: a new object is kept as
/// one, and the same references are counted.
pub fn a_heap_keeps_the_store()
    ensures { KeepsTheStore }
{}
