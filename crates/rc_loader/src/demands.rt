// What an instruction demands, by one look at it.
ghost use Rattle.std.specs.Prelude.{◌≡◌, ℕ, true, false, None, MatchOption};
ghost use Rattle.rc_code.specs.declared.image.Parts.{Parts};
ghost use Rattle.rc_code.specs.declared.instruction.Instruction.TheVariants as instruction;
ghost use Rattle.rc_loader.specs.Decisions.{empties, names_what_is_there, AreDemands};

use crate::names::{are_pins, has_type, may_be_marked};
use crate::operand::{INT, Operand, REGION};
use crate::taken::{
    Taken, callee_of, given_by_arithmetic, given_by_simple, given_by_typed, global_type, held_by,
    local_of, parameters_of, path_of, reached_cell, taken_by_arithmetic, taken_by_simple,
    taken_by_typed,
};
use rc_code::{Function, Instruction, Jump, Parts, Simple, Storage};

/// What an instruction that names what is there asks of its place and of the operands before it, and
/// what it gives.
#[derive(Clone, Copy)]
pub(crate) struct Demands<'p> {
    /// The operands that it takes.
    pub(crate) taken: Taken<'p>,
    /// The operand that it gives, if any.
    pub(crate) given: Option<Operand>,
    /// Whether it leaves no operands below those that it takes.
    pub(crate) empties: bool,
    /// Whether it leads to an instruction of its function, forwards or back as it says. All but jumps do.
    pub(crate) leads: bool,
}

/// Those of an instruction behind which the next one runs.
fn going_on<'p>(taken: Taken<'p>, given: Option<Operand>) -> Demands<'p>
    ensures { result ≡ record { taken = taken.entry; given = given; empties = false; leads = true } }
{
    Demands {
        taken,
        given,
        empties: false,
        leads: true,
    }
}

/// Those of a jump.
fn jumping<'p>(taken: Taken<'p>, leads: bool) -> Demands<'p>
    ensures { result ≡ record { taken = taken.entry; given = None; empties = true; leads = leads } }
{
    Demands {
        taken,
        given: None,
        empties: true,
        leads,
    }
}

/// Those of a jump that stands at that number.
fn demands_of_jump(function: &Function, at: usize, jump: Jump, target: u32) -> Demands<'static>
    ensures { (parts : Parts) → AreDemands parts function.now at (instruction.Jump jump target) result }
{
    let target = target as usize;
    let size = function.code.as_slice().len();
    match jump {
        Jump::Always => jumping(Taken::Nothing, at < target && target < size),
        Jump::IfZero => jumping(Taken::One(INT), at < target && target < size),
        Jump::Back => jumping(Taken::Nothing, target <= at && target < size),
    }
}

/// Those of an instruction without operands of its own.
fn demands_of_simple(function: &Function, simple: Simple) -> Demands<'static>
    ensures { (parts : Parts) (n : ℕ) → AreDemands parts function.now n (instruction.Simple simple) result }
{
    Demands {
        taken: taken_by_simple(simple, function),
        given: given_by_simple(simple),
        empties: is_return(simple),
        leads: true,
    }
}

/// Whether it leaves its function.
fn is_return(simple: Simple) -> bool
    ensures { result ≡ empties (instruction.Simple simple) }
{
    match simple {
        Simple::Return => true,
        _ => false,
    }
}

/// The demands of an instruction that stands at that number, none where it doesn't name what is there.
pub(crate) fn demands_of<'p>(
    parts: &'p Parts,
    function: &'p Function,
    at: usize,
    instruction: &Instruction,
) -> Option<Demands<'p>>
    ensures { MatchOption result (names_what_is_there parts.now function.now instruction.now ≡ false) (AreDemands parts.now function.now at instruction.now) }
{
    match instruction {
        Instruction::Constant(kind, _) => Some(going_on(
            Taken::Nothing,
            Some(Operand::number(*kind)),
        )),
        Instruction::Global(global) => {
            let pointer = Operand::held(Storage::Pointer(global_type(parts, *global)?));
            Some(going_on(Taken::Nothing, Some(pointer)))
        }
        Instruction::Get(local) => {
            let held = Operand::held(local_of(function, *local)?);
            Some(going_on(Taken::Nothing, Some(held)))
        }
        Instruction::Set(local) => {
            let held = Operand::held(local_of(function, *local)?);
            Some(going_on(Taken::One(held), None))
        }
        Instruction::Load(path) => {
            let path = path_of(parts, *path)?;
            let given = held_by(reached_cell(parts, path));
            Some(going_on(Taken::Place(path), Some(given)))
        }
        Instruction::Typed(typed, type_number) => {
            if !has_type(parts, *type_number) {
                return None;
            }
            let given = given_by_typed(*typed, *type_number);
            Some(going_on(taken_by_typed(*typed, *type_number), Some(given)))
        }
        Instruction::Arithmetic(arithmetic, kind) => {
            let given = given_by_arithmetic(*arithmetic, *kind);
            Some(going_on(taken_by_arithmetic(*arithmetic, *kind), Some(given)))
        }
        Instruction::Move(type_number, kind, _) => {
            if !has_type(parts, *type_number) {
                return None;
            }
            let pointer = Operand::held(Storage::Pointer(*type_number));
            Some(going_on(Taken::Two(pointer, Operand::number(*kind)), Some(pointer)))
        }
        Instruction::Store(path, proved) => {
            let path = path_of(parts, *path)?;
            let cell = reached_cell(parts, path);
            if !may_be_marked(cell, *proved) {
                return None;
            }
            Some(going_on(Taken::Stored(path, held_by(cell)), None))
        }
        Instruction::Simple(simple) => Some(demands_of_simple(function, *simple)),
        Instruction::Delete(pins) => {
            if !are_pins(function, pins.as_slice()) {
                return None;
            }
            Some(going_on(Taken::One(REGION), None))
        }
        Instruction::Call(callee, pins) => {
            let callee = callee_of(parts, *callee)?;
            if !are_pins(function, pins.as_slice()) {
                return None;
            }
            let given = callee.result.map(Operand::held);
            Some(going_on(Taken::Arguments(parameters_of(callee)), given))
        }
        Instruction::Jump(jump, target) => Some(demands_of_jump(function, at, *jump, *target)),
    }
}
