// A table of types.
ghost use Rattle.std.specs.Prelude.{◌≡◌, ◌≤◌, [], ◌∷◌, ◌++◌, length, map, OnOk, OnErr, IfOk, None};
ghost use Rattle.rc_core.specs.Shapes.{ty_of};
ghost use Rattle.rc_emission.specs.KeptOperands.{place_in, same_type};
ghost use Rattle.rc_lines.specs.Keys.{type_key, TypeHasKey};
ghost use Rattle.rc_numbering.specs.Tables.{seen_behind};
ghost use Rattle.rc_scope.specs.Names.{place_of};
ghost use Rattle.rc_tables.specs.Kept.{all_types, types_listed};

use crate::keys::type_key;
use rc_base::NoMemory;
use rc_core::ty::Ty;
use rc_scope::Names;
use std::alloc::Global;
use std::marker::Model;

/// Types, each once, in the order in which they were first seen: the first has the number 0. Contracts
/// see the list of them. It has at most 4,294,967,295 types.
///
/// A look-up takes the time of one in a hash table, and that of reading the type.
#[derive(Drop)]
pub struct TypeTable<'a> {
    alloc: Global,
    keys: Names,
    types: Vec<&'a Ty>,
}

impl<'a> Model for TypeTable<'a> {
    ghost use Rattle.std.specs.Prelude.{List};
    ghost use Rattle.std.specs.Coded.{codes};
    ghost use Rattle.rc_core.specs.contracts.ty.Ty as ty;
    ghost use Rattle.rc_core.specs.declared.ty.Ty.{Ty as CodeTy};
    ghost use Rattle.rc_tables.specs.Kept.{types_listed, IsTypeTable};

    ghost Value = { List CodeTy };

    ghost coded = { Prim.hlevel (codes, ty.the_row.coded) };

    ghost view = { λ t. types_listed t.types.items };

    ghost invariant = { λ t. IsTypeTable t.keys (types_listed t.types.items) };
}

impl<'a> TypeTable<'a> {
    /// A table without types. It takes no memory.
    pub fn new(alloc: Global) -> TypeTable<'a>
        ensures { result ≡ [] }
    {
        TypeTable {
            alloc,
            keys: Names::new(alloc),
            types: Vec::new(alloc),
        }
    }

    /// The types, each at its number.
    pub fn types(&self) -> &[&'a Ty]
        ensures types { types_listed result.now ≡ self.now }
        ensures few { length self.now ≤ 4294967295 }
    {
        self.types.as_slice()
    }

    /// The number of a type, and where the table doesn't have it the number of all types.
    ///
    /// # Errors
    ///
    /// Out of memory.
    pub fn number(&self, ty: &Ty) -> Result<u32, NoMemory>
        ensures { IfOk result (λ n. n ≡ place_in same_type (all_types self.now) (ty_of ty.now)) }
    {
        let key = type_key(self.alloc, ty)?;
        match self.keys.find(key.as_slice()) {
            Some(number) => Ok(number),
            None => Ok(self.keys.len() as u32),
        }
    }

    /// Puts a type behind the others, where the table doesn't have it.
    ///
    /// # Errors
    ///
    /// Out of memory, or out of numbers. The table is unchanged then.
    pub fn add(&mut self, ty: &'a Ty) -> Result<(), NoMemory>
        ensures ok { OnOk result (all_types self.new ≡ seen_behind same_type (all_types self.old) (ty_of ty.now ∷ [])) }
        ensures err { OnErr result (self.new ≡ self.old) }
    {
        let key = type_key(self.alloc, ty)?;
        match self.keys.find(key.as_slice()) {
            Some(_number) => Ok(()),
            None => self.push(key.as_slice(), ty),
        }
    }

    /// Puts a type with this key behind the others.
    fn push(&mut self, key: &[u8], ty: &'a Ty) -> Result<(), NoMemory>
        requires key { key.now ≡ type_key (ty_of ty.now) }
        requires has_key { TypeHasKey (ty_of ty.now) }
        requires is_new { place_of (map type_key (all_types self.old)) key.now ≡ None }
        ensures ok { OnOk result (self.new ≡ self.old ++ ty.now ∷ []) }
        ensures err { OnErr result (self.new ≡ self.old) }
    {
        if self.keys.len() >= u32::MAX as usize {
            return Err(NoMemory);
        }
        self.types.push(ty)?;
        if self.keys.number(key).is_err() {
            self.types.pop();
            return Err(NoMemory);
        }
        Ok(())
    }
}
