// A table of paths.
ghost use Rattle.std.specs.Prelude.{◌≡◌, ◌≤◌, [], ◌∷◌, ◌++◌, length, map, OnOk, OnErr, IfOk, None};
ghost use Rattle.std.specs.List.{AllByRecursion as Every};
ghost use Rattle.rc_code.specs.Image.{IsNumber};
ghost use Rattle.rc_emission.specs.KeptOperands.{place_in};
ghost use Rattle.rc_lines.specs.Bare.{reach_of};
ghost use Rattle.rc_numbering.specs.Names.{index_of, path_of, same_path};
ghost use Rattle.rc_numbering.specs.Tables.{seen_behind};
ghost use Rattle.rc_rlang.specs.Shapes.{index_of as code_index};
ghost use Rattle.rc_scope.specs.Names.{place_of};
ghost use Rattle.rc_tables.specs.Keys.{path_key, PathHasKey};

use crate::keys::path_key;
use rc_base::NoMemory;
use rc_code::{Index, Items, Path};
use rc_lines::Reach;
use rc_rlang::access::Index as CodeIndex;
use rc_scope::Names;
use std::alloc::Global;
use std::marker::Model;

/// Paths, each once, in the order in which they were first seen: the first has the number 0. Contracts
/// see the list of them. It has at most 4,294,967,295 paths.
///
/// A look-up takes the time of one in a hash table, and that of reading the path.
#[derive(Drop)]
pub struct PathTable {
    alloc: Global,
    keys: Names,
    paths: Vec<Path>,
}

impl Model for PathTable {
    ghost use Rattle.std.specs.Prelude.{List};
    ghost use Rattle.rc_code.specs.declared.image.Path.{Path as ImagePath};
    ghost use Rattle.rc_tables.specs.Kept.{IsPathTable};

    ghost Value = { List ImagePath };

    ghost view = { λ t. t.paths.items };

    ghost invariant = { λ t. IsPathTable t.keys t.paths.items };
}

impl PathTable {
    /// A table without paths. It takes no memory.
    pub fn new(alloc: Global) -> PathTable
        ensures { result ≡ [] }
    {
        PathTable {
            alloc,
            keys: Names::new(alloc),
            paths: Vec::new(alloc),
        }
    }

    /// The paths, each at its number.
    pub fn into_paths(self) -> Vec<Path>
        ensures paths { result.items ≡ self }
        ensures few { length self ≤ 4294967295 }
        ensures short { Every (λ p. IsNumber (length p.indices)) self }
    {
        self.paths
    }

    /// The number of a path, and where the table doesn't have it the number of all paths.
    ///
    /// # Errors
    ///
    /// Out of memory.
    pub fn number(&self, path: &Path) -> Result<u32, NoMemory>
        ensures { IfOk result (λ n. n ≡ place_in same_path self.now path.now) }
    {
        let key = path_key(self.alloc, path)?;
        match self.keys.find(key.as_slice()) {
            Some(number) => Ok(number),
            None => Ok(self.keys.len() as u32),
        }
    }

    /// Puts a path behind the others, where the table doesn't have it.
    ///
    /// # Errors
    ///
    /// Out of memory, or out of numbers. The table is unchanged then.
    pub fn add(&mut self, path: Path) -> Result<(), NoMemory>
        ensures ok { OnOk result (self.new ≡ seen_behind same_path self.old (path ∷ [])) }
        ensures err { OnErr result (self.new ≡ self.old) }
    {
        let key = path_key(self.alloc, &path)?;
        match self.keys.find(key.as_slice()) {
            Some(_number) => Ok(()),
            None => self.push(key.as_slice(), path),
        }
    }

    /// Puts a path with this key behind the others.
    fn push(&mut self, key: &[u8], path: Path) -> Result<(), NoMemory>
        requires key { key.now ≡ path_key path }
        requires has_key { PathHasKey path }
        requires is_new { place_of (map path_key self.old) key.now ≡ None }
        ensures ok { OnOk result (self.new ≡ self.old ++ path ∷ []) }
        ensures err { OnErr result (self.new ≡ self.old) }
    {
        if self.keys.len() >= u32::MAX as usize {
            return Err(NoMemory);
        }
        self.paths.push(path)?;
        if self.keys.number(key).is_err() {
            self.paths.pop();
            return Err(NoMemory);
        }
        Ok(())
    }
}

/// The indices of a path.
fn indices(alloc: Global, of: &[CodeIndex]) -> Result<Items<Index>, NoMemory>
    ensures { IfOk result (λ r. r ≡ map index_of (map code_index of.now)) }
{
    let mut indices = Vec::new(alloc);
    for index in of {
        indices.push(Index {
            length: index.count,
            stride: index.stride,
            kind: index.signedness,
        })?;
    }
    Ok(Items::new(indices))
}

/// The path to a cell, where the type that the pointer points to has this number.
///
/// # Errors
///
/// Out of memory, or a cell whose place doesn't fit 32 bits.
pub fn path(alloc: Global, type_number: u32, reach: Reach<'_>) -> Result<Path, NoMemory>
    ensures { IfOk result (λ p. p ≡ path_of (λ element. type_number) (reach_of reach.entry)) }
{
    let access = reach.access;
    let offset = access.offset.checked_add(reach.further).ok_or(NoMemory)?;
    Ok(Path {
        type_number,
        shift: access.shift,
        offset,
        indices: indices(alloc, access.indices.as_slice())?,
    })
}
