// What a whole text defines.
ghost use Rattle.std.specs.Prelude.{◌≤◌, length, map};
ghost use Rattle.rc_defined.specs.Fields.{struct_in};
ghost use Rattle.rc_defined.specs.Sizes.{HasSizes};

use crate::fields::Fields;
use rc_scope::Names;

/// What a whole text defines: its structs and its functions.
#[derive(Drop)]
pub struct Context {
    /// The names of the structs that are defined, and after them those of the structs that fields,
    /// results and parameters name and that are defined nowhere.
    pub types: Names,
    /// The fields of each struct that is defined.
    pub structs: Vec<Fields>,
    /// The number of cells of each of these, and 1,048,577 where there are more.
    pub sizes: Vec<u32>,
    /// The names of the functions that are defined.
    pub functions: Names,
    ghost named: { length structs.items ≤ length types },
    ghost sized: { HasSizes (map struct_in structs.items) sizes.items },
}
