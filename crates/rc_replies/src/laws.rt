// What holds of scripts.
ghost use Rattle.rc_replies.specs.Examples.{ExamplesCompute};
ghost use Rattle.rc_replies.specs.Laws.{SameStoresAnswerAlike};

/// Scripts with known answers have these by the definition.
pub fn examples_compute()
    ensures { ExamplesCompute }
{}

/// Stores that differ only in how many more pins have room and in the order of the pins answer a script
/// alike, and differ in no more after it.
pub fn same_stores_answer_alike()
    ensures { SameStoresAnswerAlike }
{}
