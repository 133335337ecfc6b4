// The trait of heaps that delete several regions at once.
ghost use Rattle.std.specs.Prelude.{◌≡◌, ◌↔◌, ◌+◌, ◌*◌, ◌<◌, ◌≤◌, false, OnOk, OnErr, IsErrOf, IsTrue, Contains};
ghost use Rattle.std.specs.List.{sum_by};

use crate::cell::Denied;
use crate::heap::Heap;
use rc_base::Steps;

/// A heap that deletes several regions at once.
pub trait SetHeap: Heap {
    ghost use Rattle.rc_store.specs.Sets.{IsSet, deleted_all, has_child_outside, set_refs};
    ghost use Rattle.rc_store.specs.declared.cell.Denied.TheVariants.{Root, Subregion, Reference};

    /// Deletes live regions, each of which stands there once: all of them or none. It takes no memory.
    ///
    /// # Errors
    ///
    /// Where region 0 is among them, else where a live region that isn't has a member as its parent,
    /// else where a counted cell of such a region, or a pin, names a member. After an error nothing has
    /// changed.
    fn delete_set(&mut self, set: &[u32], steps: &mut Steps<Self::Counter>) -> Result<(), Denied>
        requires { IsSet (Self.store self.old) set.now }
        ensures ok { OnOk result (Self.store self.new ≡ deleted_all set.now (Self.store self.old)) }
        ensures err { OnErr result (Self.store self.new ≡ Self.store self.old) }
        ensures root { IsErrOf result Root ↔ Contains set.now 0 }
        ensures subregion { IsErrOf result Subregion ↔ ((¬ Contains set.now 0) × IsTrue (has_child_outside set.now (Self.store self.old).regions)) }
        ensures reference { IsErrOf result Reference ↔ ((¬ Contains set.now 0) × (has_child_outside set.now (Self.store self.old).regions ≡ false) × (0 < set_refs (Self.store self.old) set.now)) }
        ensures cost { steps.new ≤ steps.old + 2 * sum_by (Self.most_reads self.old) set.now }
        ensures quiet_root { IsErrOf result Root → steps.new ≡ steps.old }
        ensures quiet_subregion { IsErrOf result Subregion → steps.new ≡ steps.old }
        ensures never_falls { steps.old ≤ steps.new };
}
