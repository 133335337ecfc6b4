// Places one step further in.
ghost use Rattle.std.specs.Prelude.{◌≡◌, option_map, IfOk, IfErr};
ghost use Rattle.rc_core.specs.Programs as p;
ghost use Rattle.rc_core.specs.Shapes.{place_of, inward as inward_step};
ghost use Rattle.rc_deletes.specs.Expressions as rule;
ghost use Rattle.rc_deletes.specs.Judged.{Holds};
ghost use Rattle.rc_typed_values.specs.Shapes.{meant_of};
ghost use Rattle.rc_typed_values.specs.Stops.{StopsAt};
ghost use Rattle.rc_rules.specs.Shapes.{found_of};

use crate::meanings::Found;
use rc_core::expr::{PathStep, Place};
use rc_deletes::Refusal;
use rc_syntax::tree::Name;
use rc_typed_values::{Meant, Stop, add, boxed, copy_of, fails};
use std::alloc::Global;

/// A place one step further in.
#[tactic(auto, using(crate::proofs::Paths::global_more, crate::proofs::Paths::pointed_more, crate::proofs::Paths::indexed_more))]
fn inward(place: Place, step: PathStep) -> Result<Place, Stop>
    ensures ok { IfOk result (λ q. place_of q ≡ rule.inward (place_of place) (inward_step step p.here)) }
    ensures err { IfErr result (λ s. s ≡ Stop.Memory) }
{
    match place {
        Place::Global { global, path } => {
            let mut path = path;
            add(&mut path, step)?;
            Ok(Place::Global { global, path })
        }
        Place::Pointed { pointer, path } => {
            let mut path = path;
            add(&mut path, step)?;
            Ok(Place::Pointed { pointer, path })
        }
        Place::Indexed {
            pointer,
            index,
            path,
        } => {
            let mut path = path;
            add(&mut path, step)?;
            Ok(Place::Indexed {
                pointer,
                index,
                path,
            })
        }
    }
}

/// A place in memory of its own, one step further in.
pub(crate) fn step_inward(
    alloc: Global,
    place: Box<Place>,
    step: PathStep,
) -> Result<Box<Place>, Stop>
    ensures ok { IfOk result (λ q. place_of q.value ≡ rule.inward (place_of place.value) (inward_step step p.here)) }
    ensures err { IfErr result (λ s. s ≡ Stop.Memory) }
{
    let place = inward(Box::into_inner(place), step)?;
    boxed(alloc, place)
}

/// A field of the struct with the number `structure`, which lies at a place.
fn field_meant(
    alloc: Global,
    place: Box<Place>,
    structure: u32,
    found: Found,
) -> Result<Meant, Stop>
    ensures ok { let f = found_of found.entry in IfOk result (λ m. meant_of m ≡ rule.field_meant (place_of place.value) structure f.0 f.1.ty f.1.count) }
    ensures err { IfErr result (λ s. s ≡ Stop.Memory) }
{
    let ty = copy_of(alloc, &found.field.ty)?;
    match found.field.length {
        None => {
            let step = PathStep::Field {
                structure,
                field: found.number,
            };
            Ok(Meant::Place(step_inward(alloc, place, step)?, ty))
        }
        Some(_) => Ok(Meant::Array(place, structure, found.number, ty)),
    }
}

/// A field of the struct with the number `structure`, which lies at a place, as it was found by
/// its name.
///
/// # Errors
///
/// It wasn't found: the name is unknown. Or out of memory.
pub fn field_rule(
    alloc: Global,
    name: &Name,
    place: Box<Place>,
    structure: u32,
    found: Option<Found>,
) -> Result<Meant, Stop>
    ensures ok { IfOk result (λ m. rule.field_rule name.now (place_of place.value) structure (option_map found_of found.entry) ≡ Holds (meant_of m)) }
    ensures err { IfErr result (StopsAt (rule.field_rule name.now (place_of place.value) structure (option_map found_of found.entry))) }
{
    match found {
        Some(found) => field_meant(alloc, place, structure, found),
        None => fails(name.spot, Refusal::Unknown),
    }
}
