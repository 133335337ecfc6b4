// Structs, fields and types, looked up among the definitions of a text.
ghost use Rattle.std.specs.Prelude.{◌≡◌, ◌<◌, length, option_map, slice_get, IfOk, IfErr};
ghost use Rattle.rc_core.specs.Shapes.{ty_of};
ghost use Rattle.rc_deletes.specs.Expressions as rule;
ghost use Rattle.rc_deletes.specs.Judged.{Holds};
ghost use Rattle.rc_deletes.specs.Kinds.{place_of, base_type, written_type};
ghost use Rattle.rc_deletes.specs.Scopes.{struct_names};
ghost use Rattle.rc_rules.specs.Shapes.{found_of};
ghost use Rattle.rc_typed_values.specs.Stops.{StopsAt};
ghost use Rattle.rc_syntax.specs.Shape as written;
ghost use Rattle.rc_defined.specs.Contexts.{context_of};

use crate::context::Context;
use rc_core::ty::Ty;
use rc_deletes::Refusal;
use rc_rules::Found;
use rc_syntax::tree::{Base, Name, TypeName};
use rc_typed_values::{Stop, fails, starred};
use std::alloc::Global;

impl Context {
    /// The number of a struct that is defined somewhere in the text.
    #[tactic(auto, using(crate::proofs::Contexts::struct_place, crate::proofs::Contexts::no_place))]
    pub fn structure(&self, name: &Name) -> Option<u32>
        ensures { result ≡ place_of (struct_names (context_of self.now)) name.now.text }
    {
        let number = self.types.find(name.text.as_slice())?;
        if (number as usize) < self.structs.len() {
            return Some(number);
        }
        None
    }

    /// A field of a struct, the first of its name.
    #[tactic(auto, using(crate::proofs::Contexts::fields_read, crate::proofs::Contexts::no_fields_past))]
    pub fn field(&self, structure: u32, name: &Name) -> Option<Found<'_>>
        ensures { option_map found_of result ≡ rule.field_named (rule.fields_at (slice_get (context_of self.now).shapes structure)) name.now.text }
    {
        if (structure as usize) < self.structs.len() {
            let fields = &self.structs[structure as usize];
            return fields.found(name.text.as_slice());
        }
        None
    }
}

/// The base of a type, whose struct is defined somewhere.
fn defined_base(context: &Context, base: &Base) -> Result<Ty, Stop>
    ensures ok { IfOk result (λ t. (rule.base_rule (context_of context.now) base.now ≡ Holds tt) × (ty_of t ≡ base_type (context_of context.now).types base.now)) }
    ensures err { IfErr result (StopsAt (rule.base_rule (context_of context.now) base.now)) }
{
    match base {
        Base::Int(_) => Ok(Ty::Int),
        Base::Unsigned(_) => Ok(Ty::Unsigned),
        Base::Char(_) => Ok(Ty::Char),
        Base::Region(_) => Ok(Ty::Region),
        Base::Struct(_, name) => match context.structure(name) {
            Some(number) => Ok(Ty::Struct(number)),
            None => fails(name.spot, Refusal::Unknown),
        },
    }
}

/// A type as it is written, whose struct is defined somewhere.
#[tactic(auto, using(crate::proofs::Stops::part_stops))]
pub fn defined_type(alloc: Global, context: &Context, n: &TypeName) -> Result<Ty, Stop>
    ensures ok { IfOk result (λ t. (rule.base_rule (context_of context.now) n.now.base ≡ Holds tt) × (ty_of t ≡ written_type (context_of context.now).types (written.type_of n.now))) }
    ensures err { IfErr result (StopsAt (rule.base_rule (context_of context.now) n.now.base)) }
{
    let base = defined_base(context, &n.base)?;
    starred(alloc, base, &n.stars)
}
