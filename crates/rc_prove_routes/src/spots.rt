// What a pass has to know of each instruction of a function.
ghost use Rattle.std.specs.Prelude.{◌≡◌, ◌<◌, ◌++◌, ◌∷◌, [], length, IfOk, OnOk};
ghost use Rattle.rc_code.specs.declared.instruction.Instruction.TheVariants as instruction;
ghost use Rattle.rc_sealed.specs.Carrying.{height as height_at};
ghost use Rattle.rc_image_steps.specs.Sites.{function_in, image_of};
ghost use Rattle.rc_prove.specs.Spots.{returns};
ghost use Rattle.rc_prove.specs.Visiting.{SpotIs};
ghost use Rattle.rc_prove_routes.specs.Walking.{IsWalk};
ghost use Rattle.rc_prove_routes.specs.Routed.{AreFirstSpots};

use crate::numbers::number_of;
use crate::walk::Walk;
use rc_base::NoMemory;
use rc_code::{Instruction, Simple};
use rc_image_counts::{function_of, instruction_of};
use rc_image_steps::{View, next_height, view_at};
use rc_prove_parts::{Lead, Spot};
use rc_prove_ways::leads_at;

fn simple_returns(simple: Simple) -> bool
    ensures { result ≡ returns (instruction.Simple simple) }
{
    match simple {
        Simple::Return => true,
        _ => false,
    }
}

/// Whether the function ends there.
fn returns(instruction: &Instruction) -> bool
    ensures { result ≡ returns instruction.now }
{
    match instruction {
        Instruction::Simple(simple) => simple_returns(*simple),
        _ => false,
    }
}

/// A variable of a function that isn't wide, as one byte.
fn narrow(variable: u32) -> u8
    requires { variable < 256 }
    ensures { result ≡ variable }
{
    variable as u8
}

/// What a pass has to know of an instruction, before which so many operands stand.
fn spot_at(walk: &Walk<'_>, at: u32, height: usize) -> Result<Spot, NoMemory>
    requires walk { IsWalk walk.now }
    requires there { at < length (function_in walk.now.site).code }
    requires height { height ≡ height_at (image_of walk.now.site) (function_in walk.now.site) at }
    ensures { IfOk result (λ spot. SpotIs (image_of walk.now.site) walk.now.site.number at spot) }
{
    let instruction = instruction_of(function_of(walk.site.parts, walk.site.number), at as usize);
    let leads = leads_at(instruction, at as usize, walk.targets, walk.ranks);
    let jumped = Lead::new(leads.jumped)?;
    let fallen = Lead::new(leads.fallen)?;
    let next = Lead::new(leads.next)?;
    let View { effect, span } = view_at(walk.alloc, &walk.site, at, height)?;
    let low = narrow(span.low);
    let top = narrow(span.top);
    Ok(Spot {
        effect,
        jumped,
        fallen,
        next,
        low,
        top,
        returns: returns(instruction),
    })
}

fn put(out: &mut Vec<Spot>, spot: Spot) -> Result<(), NoMemory>
    ensures { OnOk result (out.new.items ≡ out.old.items ++ spot ∷ []) }
{
    out.push(spot)?;
    Ok(())
}

/// How many instructions there are.
pub(crate) fn size_of(walk: &Walk<'_>) -> usize
    requires { IsWalk walk.now }
    ensures { result ≡ length (function_in walk.now.site).code }
{
    function_of(walk.site.parts, walk.site.number)
        .code
        .as_slice()
        .len()
}

/// What a pass has to know of each instruction.
///
/// # Errors
///
/// Out of memory.
pub(crate) fn spots_of(walk: &Walk<'_>) -> Result<Vec<Spot>, NoMemory>
    requires { IsWalk walk.now }
    ensures { IfOk result (λ spots. AreFirstSpots (image_of walk.now.site) walk.now.site.number (length (function_in walk.now.site).code) spots.items) }
{
    let size = size_of(walk);
    let mut spots = Vec::with_capacity(walk.alloc, size)?;
    let mut height = 0usize;
    for at in 0..size {
        let number = number_of(at)?;
        let spot = spot_at(walk, number, height)?;
        put(&mut spots, spot)?;
        let next = next_height(&walk.site, number, height);
        height = next;
    }
    Ok(spots)
}
