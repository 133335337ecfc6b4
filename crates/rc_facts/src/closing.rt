// What is derivable, by rows.
ghost use Rattle.std.specs.Prelude.{◌↔◌, length, IsTrue};
ghost use Rattle.rc_facts.specs.declared.fact.Fact.{Fact};
ghost use Rattle.rc_facts.specs.Derivable.{Derivable};
ghost use Rattle.rc_facts.specs.Inside.{fields, test_of, IsSound};

use crate::rows::{chain, extend, join, mirror};
use crate::spread::{led_back, spread};
use rc_base::BitSet;

/// Adds all that is derivable to the facts that the rows say.
///
/// Each step adds what its rules give, and no later step gives them more to add. Which variables aren't
/// null follows from the first links alone. So the links within a region can be turned round and
/// chained, then those to what lies below, which include them. What is above a traditional variable is
/// then traditional. Last, a traditional variable is above all that aren't null, and in one region with
/// the traditional ones among them.
pub(crate) fn close_rows(
    within: &mut [BitSet],
    above: &mut [BitSet],
    traditional: &mut BitSet,
    present: &mut BitSet,
)
    requires { IsSound (fields within.old above.old traditional.old present.old) }
    ensures sound { IsSound (fields within.new above.new traditional.new present.new) }
    ensures facts { (fact : Fact) → IsTrue (test_of (fields within.new above.new traditional.new present.new) fact)
        ↔ Derivable (length within.old) (test_of (fields within.old above.old traditional.old present.old)) fact }
{
    *present = spread(*present, within, above);
    mirror(within, *present);
    chain(within);
    join(above, within);
    chain(above);
    *traditional = led_back(*traditional, above);
    extend(above, *traditional, *present);
    extend(within, *traditional, traditional.intersection(*present));
}
