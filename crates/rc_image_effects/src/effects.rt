// What an instruction does to the variables of its function.
ghost use Rattle.rc_image_effects.specs.Arguments.{place_if, is_call, LocalIs, PlacesOf};
ghost use Rattle.std.specs.Prelude.{◌++◌, ◌+◌, ◌^◌, List, take, true, false, OnOk, IfOk, ◌≡◌, ◌<◌, ◌≤◌, ℕ, length};
ghost use Rattle.rc_core.specs.Layout.{note_of};
ghost use Rattle.rc_code.specs.declared.image.Function.{Function as AnyFunction};
ghost use Rattle.rc_code.specs.declared.instruction.Instruction.TheVariants as instruction;
ghost use Rattle.rc_code.specs.Running.{Reading, reading_of, function_at, path_at, cell_at, cell_kind, storage_of};
ghost use Rattle.rc_code.specs.Soundness.{is_regional, local_in, Names};
ghost use Rattle.rc_rlang.specs.RegionFlow.{moved, loaded, looked_at, stored};
ghost use Rattle.rc_graph.specs.Nodes.{effect_of};
ghost use Rattle.rc_claims.specs.Counts.{place, regional_result};
ghost use Rattle.rc_sealed.specs.ImageVariables.{result_variable};
ghost use Rattle.rc_sealed.specs.Carrying.{effect_of as effect_in, if_regional, when, load_effect};

use rc_base::NoMemory;
use rc_code::{Cell, Function, Instruction, Parts, Path, Simple, Storage, Typed};
use rc_core::ty::{Note, NumberType};
use rc_graph::Effect;
use std::alloc::Global;

/// Whether it is a region or a pointer.
fn is_regional(storage: Storage) -> bool
    ensures { result ≡ is_regional storage }
{
    match storage {
        Storage::Number(_) => false,
        Storage::Region | Storage::Pointer(_) => true,
    }
}

/// Whether the result is one.
fn regional_result(storage: Option<Storage>) -> bool
    ensures { result ≡ regional_result storage }
{
    match storage {
        None => false,
        Some(held) => is_regional(held),
    }
}

/// What a local holds.
fn local_of(function: &Function, local: u32) -> Storage
    requires { local < length function.now.locals }
    ensures { result ≡ local_in function.now local }
{
    function.locals.as_slice()[local as usize]
}

/// Puts a number behind the others, if so.
fn push_if(out: &mut Vec<u32>, so: bool, number: u32) -> Result<(), NoMemory>
    ensures { OnOk result (out.new.items ≡ out.old.items ++ place_if so number) }
{
    if so {
        out.push(number)?;
    }
    Ok(())
}

/// The places of those arguments that are regions or pointers, the first argument at this place.
fn arguments(alloc: Global, parameters: &[Storage], first: u32) -> Result<Vec<u32>, NoMemory>
    requires { first + length parameters.now < 2 ^ 32 }
    ensures { IfOk result (λ places. PlacesOf parameters.now first places.items) }
{
    let mut places = Vec::new(alloc);
    let mut place = first;
    for storage in parameters {
        push_if(&mut places, is_regional(*storage), place)?;
        place += 1;
    }
    Ok(places)
}

/// A move, where it is of a region or a pointer.
fn moved(regional: bool, to: u32, from: u32) -> Effect
    ensures { effect_of result ≡ if_regional regional (moved to from) }
{
    if regional {
        Effect::Moved(to, from)
    } else {
        Effect::Nothing
    }
}

/// The cell that a path leads to.
fn cell_of(parts: &Parts, path: &Path) -> Cell
    ensures { cell_kind result ≡ cell_at (reading_of parts.now) path.now }
{
    let Some(cells) = parts.types.as_slice().get(path.type_number as usize) else {
        return Cell::Number(NumberType::Int);
    };
    match cells.as_slice().get(path.offset as usize) {
        Some(cell) => *cell,
        None => Cell::Number(NumberType::Int),
    }
}

/// Its annotation.
fn note_in(cell: Cell) -> Note
    ensures { result ≡ note_of (cell_kind cell) }
{
    match cell {
        Cell::Number(_) | Cell::Region => Note::Plain,
        Cell::Pointer(note, _) => note,
    }
}

/// Whether it has a region or a pointer.
fn is_regional_cell(cell: Cell) -> bool
    ensures { (image : Reading) → result ≡ is_regional (storage_of image (cell_kind cell)) }
{
    match cell {
        Cell::Number(_) => false,
        Cell::Region | Cell::Pointer(..) => true,
    }
}

/// What a load does.
fn loaded(cell: Cell, low: u32) -> Effect
    ensures { (image : Reading) → effect_of result ≡ load_effect (is_regional (storage_of image (cell_kind cell))) (loaded low low (note_of (cell_kind cell))) (looked_at low) }
{
    if is_regional_cell(cell) {
        Effect::Loaded(low, low, note_in(cell))
    } else {
        Effect::LookedAt(low)
    }
}

/// What an instruction without operands of its own does.
fn of_simple(function: &Function, answer: u32, simple: Simple, low: u32, high: u32) -> Effect
    ensures { (image : Reading) (l h : ℕ) → low ≡ place function.now l → high ≡ place function.now h → answer ≡ result_variable image function.now → effect_of result ≡ effect_in image function.now l h (instruction.Simple simple) }
{
    match simple {
        Simple::NullRegion => Effect::Nulled(low),
        Simple::NewRegion => Effect::Made(low),
        Simple::NewSubregion => Effect::Under(low, low),
        Simple::Return => moved(regional_result(function.result), answer, high),
        _ => Effect::Nothing,
    }
}

/// What an instruction with a type does.
fn of_typed(typed: Typed, low: u32) -> Effect
    ensures { (image : Reading) (f : AnyFunction) (type_number l h : ℕ) → low ≡ place f l → effect_of result ≡ effect_in image f l h (instruction.Typed typed type_number) }
{
    match typed {
        Typed::Null => Effect::Nulled(low),
        Typed::Same | Typed::IsNull => Effect::Nothing,
        Typed::RegionOf | Typed::Allocate | Typed::AllocateArray => Effect::Beside(low, low),
    }
}

/// Where the operands and the result of an instruction are.
#[derive(Clone, Copy)]
pub struct Places {
    /// The lowest operand that it takes, and what it gives.
    pub low: u32,
    /// The highest operand.
    pub high: u32,
    /// The result of the function.
    pub result: u32,
    /// The local that it names, if it names one.
    pub local: u32,
}

/// What a store does.
fn stored(cell: Cell, places: Places) -> Effect
    ensures { effect_of result ≡ stored places.high places.low (note_of (cell_kind cell)) }
{
    Effect::Stored(places.high, places.low, note_in(cell))
}

/// The variable, if so.
fn when(so: bool, variable: u32) -> Option<u32>
    ensures { result ≡ when so variable }
{
    if so { Some(variable) } else { None }
}

/// The function of that number.
fn function_of(parts: &Parts, number: u32) -> &Function
    requires { number < length parts.now.functions }
    ensures { result.now ≡ function_at (reading_of parts.now) number }
{
    &parts.functions.as_slice()[number as usize]
}

/// The path of that number.
fn path_of(parts: &Parts, number: u32) -> &Path
    requires { number < length parts.now.paths }
    ensures { result.now ≡ path_at (reading_of parts.now) number }
{
    &parts.paths.as_slice()[number as usize]
}

/// Its parameters.
fn parameters_of(function: &Function) -> &[Storage]
    requires { function.now.parameters ≤ length function.now.locals }
    ensures { result.now ≡ take function.now.parameters function.now.locals }
{
    &function.locals.as_slice()[..function.parameters as usize]
}

/// What a call does.
///
/// # Errors
///
/// Out of memory.
pub fn of_call(alloc: Global, parts: &Parts, number: u32, low: u32) -> Result<Effect, NoMemory>
    requires there { number < length parts.now.functions }
    requires parameters { (function_at (reading_of parts.now) number).parameters ≤ length (function_at (reading_of parts.now) number).locals }
    requires room { low + (function_at (reading_of parts.now) number).parameters < 2 ^ 32 }
    ensures { IfOk result (λ e. (f : AnyFunction) (l h : ℕ) (pins : List ℕ) → low ≡ place f l → effect_of e ≡ effect_in (reading_of parts.now) f l h (instruction.Call number pins)) }
{
    let to = function_of(parts, number);
    let arguments = arguments(alloc, parameters_of(to), low)?;
    Ok(Effect::Called {
        result: when(regional_result(to.result), low),
        function: number,
        arguments,
    })
}

/// What an instruction does, other than a call.
pub fn of_other(
    parts: &Parts,
    function: &Function,
    instruction: &Instruction,
    places: Places,
) -> Effect
    requires names { Names true (reading_of parts.now) function.now instruction.now }
    ensures { (l h : ℕ) → places.low ≡ place function.now l → places.high ≡ place function.now h → places.result ≡ result_variable (reading_of parts.now) function.now → LocalIs function.now places.local instruction.now → is_call instruction.now ≡ false
        → effect_of result ≡ effect_in (reading_of parts.now) function.now l h instruction.now }
{
    match instruction {
        Instruction::Global(_) => Effect::Fixed(places.low),
        Instruction::Get(local) => moved(
            is_regional(local_of(function, *local)),
            places.low,
            places.local,
        ),
        Instruction::Set(local) => moved(
            is_regional(local_of(function, *local)),
            places.local,
            places.high,
        ),
        Instruction::Load(path) => loaded(cell_of(parts, path_of(parts, *path)), places.low),
        Instruction::Store(path, _) => stored(cell_of(parts, path_of(parts, *path)), places),
        Instruction::Typed(typed, _) => of_typed(*typed, places.low),
        Instruction::Move(..) => Effect::Beside(places.low, places.low),
        Instruction::Simple(simple) => {
            of_simple(function, places.result, *simple, places.low, places.high)
        }
        Instruction::Delete(_) => Effect::Present(places.low),
        _ => Effect::Nothing,
    }
}
