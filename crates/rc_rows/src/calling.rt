// Calls over objects in memory, and what they come to.
ghost use Rattle.std.specs.Prelude.{◌≡◌, ◌<◌};

use crate::behind::{Seen, look};
use crate::outside::{Outside, no_memory, outside_of};
use crate::row::{Call, Row};
use rc_base::{NoMemory, Steps};
use rc_count::CountHeap;
use rc_driver::{Done, Fault, rc_main, status_of};
use std::alloc::Global;
use std::io;
use std::marker::Brand;
use std::sync::ledger::{Blank, Ledger};

/// What a call came to: its answer as `{:?}` prints it, its status, the objects over which it was made, and
/// what is seen of the heap.
#[derive(Drop)]
pub(crate) struct Came {
    pub(crate) answer: String,
    pub(crate) status: u8,
    pub(crate) outside: Outside,
    pub(crate) heap: Seen,
}

impl Came {
    /// Nothing yet, over these objects.
    fn before(alloc: Global, outside: Outside) -> Came {
        Came {
            answer: String::new(alloc),
            status: 0,
            outside,
            heap: Seen::nothing(alloc),
        }
    }
}

/// What `rc_main` answers to these words, over a new heap, which is looked at afterwards.
fn answer_to<L: Ledger>(
    alloc: Global,
    words: &[String],
    outside: &mut Outside,
    seen: &mut Seen,
    blank: Blank,
) -> Result<Result<Done, Fault>, NoMemory>
    requires name { blank.name ≡ L.name }
    requires parts { blank.parts ≡ L.parts }
    requires some { 0 < L.parts }
{
    let mut heap = CountHeap::<L>::new(alloc)?;
    let mut steps = Steps::<L>::start(blank);
    let answer = rc_main(
        alloc,
        words,
        &mut outside.files,
        &mut outside.input,
        &mut outside.out,
        &mut outside.err,
        &mut heap,
        &mut steps,
    );
    look(alloc, &mut heap, seen, &mut steps)?;
    Ok(answer)
}

/// Makes a call with these words, and keeps what it comes to.
fn call(alloc: Global, words: &[String], came: &mut Came) -> io::Result<()> {
    let Ok(answer) = answer_to::<Brand>(
        alloc,
        words,
        &mut came.outside,
        &mut came.heap,
        Blank::new(1),
    ) else {
        return no_memory();
    };
    came.status = status_of(&answer);
    came.answer = format!(in alloc; "{answer:?}")?;
    Ok(())
}

/// Makes the call of a row with these words, where these calls of the outside fail, and answers what it
/// came to.
pub(crate) fn make_call(
    alloc: Global,
    row: &Row,
    words: &[String],
    failing: &[Call],
) -> io::Result<Came> {
    let outside = outside_of(alloc, row, failing)?;
    let mut came = Came::before(alloc, outside);
    call(alloc, words, &mut came)?;
    Ok(came)
}
