// The fields of a struct.
ghost use Rattle.std.specs.Prelude.{map};
ghost use Rattle.rc_defined.specs.Firsts.{FindsFirst};

use rc_core::parts::Field;
use rc_scope::Names;

/// A field with its name.
#[derive(Drop)]
pub struct NamedField {
    pub name: Vec<u8>,
    pub field: Field,
}

/// The fields of a struct in their order, each with its name. A name is looked up in constant time.
#[derive(Drop)]
pub struct Fields {
    pub fields: Vec<NamedField>,
    pub names: Names,
    /// For each of the names the place of the first field that has it.
    pub places: Vec<u32>,
    ghost found: { FindsFirst names places.items (map (λ f. f.name.items) fields.items) },
}
