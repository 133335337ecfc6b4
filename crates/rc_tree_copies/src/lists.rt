// Lists of parts.
ghost use Rattle.std.specs.Prelude.{◌≡◌, ℕ, IfOk, map};

use rc_base::NoMemory;
use rc_expression_copies::add;
use std::alloc::Global;

/// A part of a tree, which is copied to where its words stand later.
pub(crate) trait Part: Drop + Sized {
    // What it is, without where it lies in memory.
    ghost Shape: { Type 0 };

    ghost shape: { Self → Shape };

    // The same, so many words later.
    ghost moved: { ℕ → Shape → Shape };

    /// A copy that many words later.
    fn copied(&self, alloc: Global, by: u32) -> Result<Box<Self>, NoMemory>
        ensures { IfOk result (λ r. shape r.value ≡ moved by (shape self.now)) };
}

/// Copies of parts, each that many words later.
#[tactic(auto, using(crate::proofs::Copied::copied_step))]
pub(crate) fn copies<T: Part>(parts: &[T], alloc: Global, by: u32) -> Result<Vec<T>, NoMemory>
    ensures { IfOk result (λ r. map T.shape r.items ≡ map (T.moved by) (map T.shape parts.now)) }
{
    let mut copies = Vec::new(alloc);
    for part in parts {
        let copy = part.copied(alloc, by)?;
        add(&mut copies, copy)?;
    }
    Ok(copies)
}
