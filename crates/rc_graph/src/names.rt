// The numbers of a function's region variables.
ghost use Rattle.std.specs.Prelude.{◌≡◌, ◌+◌, ℕ, List, IfOk, map, length, take, get_or, count_by};
ghost use Rattle.rc_core.specs.Layout.{note_of};
ghost use Rattle.rc_core.specs.Laid.{held_kind};
ghost use Rattle.rc_core.specs.Shapes.{ty_of};
ghost use Rattle.rc_core.specs.Types.{CellKind};
ghost use Rattle.rc_rlang.specs.RegionCode.{Routine};
ghost use Rattle.rc_rlang.specs.RegionFlow.{is_regional as is_regional_type, is_regional_cell, note_in as note_in_type, local_variable, temporary_variable, regional_arguments};
ghost use Rattle.rc_graph.specs.Nodes.{Numbers};

use rc_base::NoMemory;
use rc_core::Kind;
use rc_core::ty::{Note, Ty};
use rc_plans::add;
use std::alloc::Global;

/// The numbers of a function's region variables: first the hidden copies, then the locals that are
/// regions or pointers, then the temporaries.
#[derive(Drop)]
pub(crate) struct Names {
    /// How many hidden copies there are.
    pub(crate) copies: u32,
    /// For each local how many before it are regions or pointers.
    pub(crate) ranks: Vec<u32>,
    /// How many locals are regions or pointers.
    pub(crate) all: u32,
    /// The variable of the first temporary.
    pub(crate) first: u32,
}

/// Whether values of this type have a variable.
pub(crate) fn is_regional(ty: &Ty) -> bool
    ensures { result ≡ is_regional_type (ty_of ty.now) }
{
    match ty {
        Ty::Int => false,
        Ty::Unsigned => false,
        Ty::Char => false,
        Ty::Region => true,
        Ty::Struct(_) => false,
        Ty::Pointer(..) => true,
    }
}

/// The annotation of a cell of a type.
pub fn note_in(ty: &Ty) -> Note
    ensures { result ≡ note_in_type (ty_of ty.now) }
{
    match ty {
        Ty::Int => Note::Plain,
        Ty::Unsigned => Note::Plain,
        Ty::Char => Note::Plain,
        Ty::Region => Note::Plain,
        Ty::Struct(_) => Note::Plain,
        Ty::Pointer(note, _) => *note,
    }
}

/// The annotation of a cell.
pub fn cell_note(kind: &Kind) -> Note
    ensures { (cell : CellKind) → kind.now ≡ held_kind cell → result ≡ note_of cell }
{
    match kind {
        Kind::Number => Note::Plain,
        Kind::Region => Note::Plain,
        Kind::Pointer(note) => *note,
    }
}

/// Whether a cell of this kind is a region or a pointer.
pub fn is_regional_kind(kind: &Kind) -> bool
    ensures { (cell : CellKind) → kind.now ≡ held_kind cell → result ≡ is_regional_cell cell }
{
    match kind {
        Kind::Number => false,
        Kind::Region => true,
        Kind::Pointer(_) => true,
    }
}

/// How many before a local are regions or pointers, where so many are in all.
fn rank(ranks: &[u32], local: u32, all: u32) -> u32
    ensures { result ≡ get_or ranks.now local all }
{
    match ranks.get(local as usize) {
        None => all,
        Some(rank) => *rank,
    }
}

/// The numbers for a function with these locals, of which so many are parameters.
pub(crate) fn number(alloc: Global, parameters: u32, locals: &[Ty]) -> Result<Names, NoMemory>
    ensures { (f : Routine) → f.parameters ≡ parameters → f.locals ≡ map ty_of locals.now → IfOk result (λ n. Numbers f n) }
{
    let mut ranks = Vec::new(alloc);
    let mut count = 0u32;
    for ty in locals {
        ranks.push(count)?;
        if is_regional(ty) {
            count = add(count, 1)?;
        }
    }
    let copies = rank(ranks.as_slice(), parameters, count);
    Ok(Names {
        copies,
        ranks,
        all: count,
        first: add(copies, count)?,
    })
}

impl Names {
    /// The variable of a local.
    pub(crate) fn local(&self, local: u32) -> Result<u32, NoMemory>
        ensures { (f : Routine) → Numbers f self.now → IfOk result (λ v. v ≡ local_variable f local) }
    {
        add(self.copies, rank(self.ranks.as_slice(), local, self.all))
    }

    /// The hidden copy of a parameter, which has the number of those before it.
    pub(crate) fn copy(&self, local: u32) -> u32
        ensures { (f : Routine) → Numbers f self.now → result ≡ count_by is_regional_type (take local f.locals) }
    {
        rank(self.ranks.as_slice(), local, self.all)
    }

    /// The variable of a temporary.
    pub(crate) fn temporary(&self, height: u32) -> Result<u32, NoMemory>
        ensures { (f : Routine) → Numbers f self.now → IfOk result (λ v. v ≡ temporary_variable f height) }
    {
        add(self.first, height)
    }

    /// The variables of the arguments that are regions or pointers, of which the first stands in this
    /// temporary.
    pub(crate) fn arguments(
        &self,
        alloc: Global,
        types: &[Ty],
        height: u32,
    ) -> Result<Vec<u32>, NoMemory>
        ensures { (f : Routine) → Numbers f self.now → IfOk result (λ all. all.items ≡ regional_arguments f (map ty_of types.now) height) }
    {
        let mut all = Vec::new(alloc);
        let mut at = height;
        for ty in types {
            if is_regional(ty) {
                all.push(self.temporary(at)?)?;
            }
            at = add(at, 1)?;
        }
        Ok(all)
    }
}
