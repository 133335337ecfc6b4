// The numbers of types and paths.
ghost use Rattle.std.specs.Prelude.{◌≡◌, IfOk};
ghost use Rattle.rc_core.specs.Shapes.{ty_of};
ghost use Rattle.rc_lines.specs.Bare.{reach_of};
ghost use Rattle.rc_tables.specs.Placed.{path_number, type_number};

use crate::paths::{PathTable, path};
use crate::types::TypeTable;
use rc_base::NoMemory;
use rc_core::ty::Ty;
use rc_lines::Reach;
use std::alloc::Global;

/// The tables of types and of paths, from which numbers are read.
#[derive(Clone, Copy)]
pub struct Numbers<'n> {
    pub alloc: Global,
    pub types: &'n TypeTable<'n>,
    pub paths: &'n PathTable,
}

impl<'n> Numbers<'n> {
    /// The number of a type.
    ///
    /// # Errors
    ///
    /// Out of memory.
    pub fn type_number(&self, ty: &Ty) -> Result<u32, NoMemory>
        ensures { IfOk result (λ r. r ≡ type_number self.now (ty_of ty.now)) }
    {
        self.types.number(ty)
    }

    /// The number of the path to a cell.
    pub(crate) fn path_number(&self, reach: Reach<'_>) -> Result<u32, NoMemory>
        ensures { IfOk result (λ r. r ≡ path_number self.now (reach_of reach.entry)) }
    {
        let type_number = self.type_number(&reach.access.element)?;
        self.paths.number(&path(self.alloc, type_number, reach)?)
    }
}
