// Operands that an instruction takes, and those that it gives.
ghost use Rattle.std.specs.Prelude.{◌≡◌, ◌<◌, ◌≤◌, ◌+◌, ◌-◌, ◌^◌, ℕ, suc, length};
ghost use Rattle.rc_core.specs.declared.ty.Signedness.{Signedness};
ghost use Rattle.rc_code.specs.declared.instruction.Instruction.TheVariants as instruction;
ghost use Rattle.rc_code.specs.declared.image.Function.{Function as AnyFunction};
ghost use Rattle.rc_code.specs.Running.{Reading, function_at, path_at, reading_of};
ghost use Rattle.rc_code.specs.Soundness.{count_off, gives, instruction_at, kinds_before, parameter_kinds, place_kinds, takes};
ghost use Rattle.rc_claims.specs.Counts.{one_if};

use rc_code::{Arithmetic, Function, Instruction, Jump, Parts, Path, Simple, Typed};

/// The function of that number.
pub fn function_of(parts: &Parts, number: u32) -> &Function
    requires { number < length parts.now.functions }
    ensures { result.now ≡ function_at (reading_of parts.now) number }
{
    &parts.functions.as_slice()[number as usize]
}

/// The instruction of that number.
pub fn instruction_of(function: &Function, at: usize) -> &Instruction
    requires { at < length function.now.code }
    ensures { result.now ≡ instruction_at function.now at }
{
    &function.code.as_slice()[at]
}

/// How many of so many operands are below those of a place.
fn below_place(path: &Path, height: usize) -> usize
    ensures { result ≡ height - length (place_kinds path.now) }
{
    let height = height.saturating_sub(path.indices.as_slice().len());
    match path.shift {
        None => height.saturating_sub(1),
        Some(_) => height.saturating_sub(2),
    }
}

/// How many of so many operands are below those of the place of that number.
fn below_path(parts: &Parts, path: u32, height: usize) -> usize
    ensures { result ≡ height - length (place_kinds (path_at (reading_of parts.now) path)) }
{
    match parts.paths.as_slice().get(path as usize) {
        Some(path) => below_place(path, height),
        None => height.saturating_sub(1),
    }
}

/// How many of so many operands are below the arguments of a function.
fn below_arguments(function: &Function, height: usize) -> usize
    ensures { result ≡ height - length (parameter_kinds function.now) }
{
    let parameters = function.parameters as usize;
    height.saturating_sub(parameters.min(function.locals.as_slice().len()))
}

/// How many of so many operands are below the arguments of the function of that number.
fn below_call(parts: &Parts, number: u32, height: usize) -> usize
    ensures { result ≡ height - length (parameter_kinds (function_at (reading_of parts.now) number)) }
{
    match parts.functions.as_slice().get(number as usize) {
        Some(function) => below_arguments(function, height),
        None => height,
    }
}

fn taken_by_typed(typed: Typed) -> usize
    ensures { (image : Reading) (f : AnyFunction) (type_number : ℕ) → result ≡ length (takes image f (instruction.Typed typed type_number)) }
{
    match typed {
        Typed::Null => 0,
        Typed::IsNull | Typed::RegionOf | Typed::Allocate => 1,
        Typed::Same | Typed::AllocateArray => 2,
    }
}

fn taken_by_arithmetic(arithmetic: Arithmetic) -> usize
    ensures { (image : Reading) (f : AnyFunction) (kind : Signedness) → result ≡ length (takes image f (instruction.Arithmetic arithmetic kind)) }
{
    match arithmetic {
        Arithmetic::Negate | Arithmetic::Complement => 1,
        _ => 2,
    }
}

fn taken_by_simple(function: &Function, simple: Simple) -> usize
    ensures { (image : Reading) → result ≡ count_off image function.now (instruction.Simple simple) }
{
    match simple {
        Simple::NullRegion | Simple::NewRegion | Simple::GetChar => 0,
        Simple::SameRegion => 2,
        Simple::Return => match function.result {
            None => 0,
            Some(_) => 1,
        },
        _ => 1,
    }
}

fn taken_by_jump(jump: Jump) -> usize
    ensures { (image : Reading) (f : AnyFunction) (to : ℕ) → result ≡ length (takes image f (instruction.Jump jump to)) }
{
    match jump {
        Jump::Always | Jump::Back => 0,
        Jump::IfZero => 1,
    }
}

/// How many of so many operands are below those that an instruction takes.
#[tactic(auto, using(crate::proofs::Taken::constant_takes))]
pub fn lowest(parts: &Parts, function: &Function, instruction: &Instruction, height: usize) -> usize
    ensures { result ≡ height - count_off (reading_of parts.now) function.now instruction.now }
{
    match instruction {
        Instruction::Constant(..) | Instruction::Global(_) | Instruction::Get(_) => height,
        Instruction::Set(_) | Instruction::Delete(_) => height.saturating_sub(1),
        Instruction::Load(path) => below_path(parts, *path, height),
        Instruction::Store(path, _) => below_path(parts, *path, height.saturating_sub(1)),
        Instruction::Typed(typed, _) => height.saturating_sub(taken_by_typed(*typed)),
        Instruction::Arithmetic(arithmetic, _) => {
            height.saturating_sub(taken_by_arithmetic(*arithmetic))
        }
        Instruction::Move(..) => height.saturating_sub(2),
        Instruction::Simple(simple) => { height.saturating_sub(taken_by_simple(function, *simple)) }
        Instruction::Call(number, _) => below_call(parts, *number, height),
        Instruction::Jump(jump, _) => height.saturating_sub(taken_by_jump(*jump)),
    }
}

fn simple_gives(simple: Simple) -> bool
    ensures { (image : Reading) (f : AnyFunction) → length (gives image f (instruction.Simple simple)) ≡ one_if result }
{
    match simple {
        Simple::Return | Simple::Pop => false,
        _ => true,
    }
}

fn has_result(parts: &Parts, number: u32) -> bool
    ensures { (f : AnyFunction) (pins : _) → length (gives (reading_of parts.now) f (instruction.Call number pins)) ≡ one_if result }
{
    match parts.functions.as_slice().get(number as usize) {
        Some(function) => function.result.is_some(),
        None => false,
    }
}

/// Whether an instruction gives an operand.
fn gives_one(parts: &Parts, instruction: &Instruction) -> bool
    ensures { (f : AnyFunction) → length (gives (reading_of parts.now) f instruction.now) ≡ one_if result }
{
    match instruction {
        Instruction::Simple(simple) => simple_gives(*simple),
        Instruction::Call(number, _) => has_result(parts, *number),
        Instruction::Set(_)
        | Instruction::Store(..)
        | Instruction::Delete(_)
        | Instruction::Jump(..) => false,
        _ => true,
    }
}

/// How many operands stand behind an instruction before which so many stand.
pub fn height_behind(parts: &Parts, function: &Function, at: usize, height: usize) -> usize
    requires there { at < length function.now.code }
    requires height { height ≡ length (kinds_before (reading_of parts.now) function.now at) }
    requires small { height < 2 ^ 32 }
    ensures height { result ≡ length (kinds_before (reading_of parts.now) function.now (suc at)) }
    ensures most { result ≤ height + 1 }
{
    let instruction = instruction_of(function, at);
    let left = lowest(parts, function, instruction, height);
    if gives_one(parts, instruction) {
        left + 1
    } else {
        left
    }
}
