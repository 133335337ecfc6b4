// An instruction of a function: where its operands stand, and what it does to the variables.
ghost use Rattle.std.specs.Prelude.{◌≡◌, ◌<◌, ◌≤◌, ◌+◌, ◌-◌, ◌^◌, ℕ, suc, true, false, length, IfOk, MatchOption, get_or};
ghost use Rattle.rc_code.specs.declared.image.Function.{Function as AnyFunction};
ghost use Rattle.rc_code.specs.declared.instruction.Instruction.TheVariants as variant;
ghost use Rattle.rc_code.specs.Running.{Reading};
ghost use Rattle.rc_code.specs.Soundness.{Names, instruction_at};
ghost use Rattle.rc_graph.specs.Nodes.{effect_of};
ghost use Rattle.rc_claims.specs.Counts.{place};
ghost use Rattle.rc_sealed.specs.ImageVariables.{greater};
ghost use Rattle.rc_sealed.specs.Carrying.{effect_at, height as height_at, is_target, lowest, reach};
ghost use Rattle.rc_image_effects.specs.Arguments.{is_call, LocalIs};
ghost use Rattle.rc_image_shapes.specs.Shapes.{IsShape};
ghost use Rattle.rc_image_steps.specs.Sites.{function_in, image_of, named_local, ArePlaces, IsSite};

use rc_base::NoMemory;
use rc_code::{Instruction, Parts};
use rc_graph::Effect;
use rc_image_counts::{function_of, height_behind, instruction_of, lowest};
use rc_image_effects::{Places, of_call, of_other};
use rc_image_shapes::Shape;
use std::alloc::Global;

/// A function of an image, with its shape.
#[derive(Clone, Copy)]
pub struct Site<'a> {
    /// The image.
    pub parts: &'a Parts,
    /// The number of the function.
    pub number: u32,
    /// Its shape.
    pub shape: &'a Shape,
}

/// The variables that an instruction takes or writes, but for locals.
#[derive(Clone, Copy)]
pub struct Span {
    /// The first of them.
    pub low: u32,
    /// One past the last.
    pub top: u32,
}

/// What an instruction is to the variables.
#[derive(Drop)]
pub struct View {
    /// What it does to them.
    pub effect: Effect,
    /// The stack places that it takes or writes.
    pub span: Span,
}

/// What a table tells of a number, no where it tells nothing.
fn is_marked(marks: &[bool], at: u32) -> bool
    ensures { result ≡ get_or marks.now at false }
{
    match marks.get(at as usize) {
        Some(so) => *so,
        None => false,
    }
}

/// Whether a jump leads to that instruction.
#[tactic(auto, using(crate::proofs::Places::target_is))]
pub(crate) fn is_target(shape: &Shape, at: u32) -> bool
    ensures { (image : Reading) (f : AnyFunction) → IsShape image f shape.now → result ≡ is_target f at }
{
    is_marked(shape.targets.as_slice(), at)
}

/// The variable of that stack place.
fn place_of(shape: &Shape, number: usize) -> u32
    requires { shape.now.first + number ≤ 128 }
    ensures { (image : Reading) (f : AnyFunction) → IsShape image f shape.now → result ≡ place f number }
{
    shape.first + number as u32
}

/// The number in a table, 0 where there is none.
fn number_at(numbers: &[u32], at: u32) -> u32
    ensures { result ≡ get_or numbers.now at 0 }
{
    match numbers.get(at as usize) {
        Some(number) => *number,
        None => 0,
    }
}

/// The local that an instruction names, 0 where it names none.
fn named_local(instruction: &Instruction) -> u32
    ensures { result ≡ named_local instruction.now }
{
    match instruction {
        Instruction::Get(local) | Instruction::Set(local) => *local,
        _ => 0,
    }
}

/// The variable of the local that an instruction names, if it names one.
fn local_of(shape: &Shape, instruction: &Instruction) -> u32
    ensures { (image : Reading) (f : AnyFunction) → IsShape image f shape.now → Names true image f instruction.now → LocalIs f result instruction.now }
{
    number_at(shape.locals.as_slice(), named_local(instruction))
}

/// Where the operands of an instruction stand, before which so many stand.
fn places_at(site: &Site<'_>, at: u32, height: usize) -> Places
    requires site { IsSite site.now }
    requires there { at < length (function_in site.now).code }
    requires height { height ≡ height_at (image_of site.now) (function_in site.now) at }
    ensures { ArePlaces (image_of site.now) (function_in site.now) at result }
{
    let function = function_of(site.parts, site.number);
    let instruction = instruction_of(function, at as usize);
    let below = lowest(site.parts, function, instruction, height);
    Places {
        low: place_of(site.shape, below),
        high: place_of(site.shape, height.saturating_sub(1)),
        result: site.shape.result,
        local: local_of(site.shape, instruction),
    }
}

/// How many operands stand behind an instruction before which so many stand.
pub fn next_height(site: &Site<'_>, at: u32, height: usize) -> usize
    requires site { IsSite site.now }
    requires there { at < length (function_in site.now).code }
    requires height { height ≡ height_at (image_of site.now) (function_in site.now) at }
    ensures { result ≡ height_at (image_of site.now) (function_in site.now) (suc at) }
{
    height_behind(
        site.parts,
        function_of(site.parts, site.number),
        at as usize,
        height,
    )
}

fn greater(a: usize, b: usize) -> usize
    ensures { result ≡ greater a b }
{
    if a < b { b } else { a }
}

/// The stack places that an instruction takes or writes, from the variable of the first of them on, before
/// which so many operands stand, and behind which there are so many.
fn span_from(site: &Site<'_>, low: u32, at: u32, height: usize, next: usize) -> Span
    requires site { IsSite site.now }
    requires there { at < length (function_in site.now).code }
    requires height { height ≡ height_at (image_of site.now) (function_in site.now) at }
    requires next { next ≡ height_at (image_of site.now) (function_in site.now) (suc at) }
    ensures low { result.low ≡ low }
    ensures top { result.top ≡ place (function_in site.now) (reach (image_of site.now) (function_in site.now) at) }
{
    let most = greater(height, next);
    Span {
        low,
        top: place_of(site.shape, most),
    }
}

/// The function that an instruction calls, if it is a call.
fn called_by(instruction: &Instruction) -> Option<u32>
    ensures { MatchOption result (is_call instruction.now ≡ false) (λ number. (pins : _) × (instruction.now ≡ variant.Call number pins)) }
{
    match instruction {
        Instruction::Call(number, _) => Some(*number),
        _ => None,
    }
}

/// What an instruction does to the variables, whose operands stand at these places.
fn effect_by(alloc: Global, site: &Site<'_>, at: u32, places: Places) -> Result<Effect, NoMemory>
    requires site { IsSite site.now }
    requires there { at < length (function_in site.now).code }
    requires places { ArePlaces (image_of site.now) (function_in site.now) at places }
    ensures { IfOk result (λ e. effect_of e ≡ effect_at (image_of site.now) (function_in site.now) at) }
{
    let function = function_of(site.parts, site.number);
    let instruction = instruction_of(function, at as usize);
    match called_by(instruction) {
        Some(number) => of_call(alloc, site.parts, number, places.low),
        None => Ok(of_other(site.parts, function, instruction, places)),
    }
}

/// What an instruction is to the variables, before which so many operands stand.
///
/// # Errors
///
/// Out of memory.
pub fn view_at(alloc: Global, site: &Site<'_>, at: u32, height: usize) -> Result<View, NoMemory>
    requires site { IsSite site.now }
    requires there { at < length (function_in site.now).code }
    requires height { height ≡ height_at (image_of site.now) (function_in site.now) at }
    ensures effect { IfOk result (λ view. effect_of view.effect ≡ effect_at (image_of site.now) (function_in site.now) at) }
    ensures low { IfOk result (λ view. view.span.low ≡ place (function_in site.now) (lowest (image_of site.now) (function_in site.now) at)) }
    ensures top { IfOk result (λ view. view.span.top ≡ place (function_in site.now) (reach (image_of site.now) (function_in site.now) at)) }
{
    let places = places_at(site, at, height);
    let next = next_height(site, at, height);
    let span = span_from(site, places.low, at, height, next);
    let effect = effect_by(alloc, site, at, places)?;
    Ok(View { effect, span })
}
