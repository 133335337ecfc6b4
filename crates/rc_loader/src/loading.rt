// Loading an image.
ghost use Rattle.std.specs.Prelude.{◌≡◌, ◌<◌, length, IfOk, IfErr, MatchOption, Decides, map};
ghost use Rattle.rc_code.specs.Image.{FieldsFit};
ghost use Rattle.rc_code.specs.Running.{reading_of, function_at};
ghost use Rattle.rc_code.specs.Soundness.{Sound};
ghost use Rattle.rc_loader.specs.Violations.{MainIsFine, FirstViolation, IsFault};
ghost use Rattle.rc_loader.specs.Unmarked.{unmarked_instruction, unmarked_function, unmarked};

use crate::code::check_code;
use crate::fault::{LoadFault, Rule, Violation};
use rc_code::{Function, Image, Instruction, Items, Loaded, Parts, Storage};
use rc_core::ty::NumberType;
use std::alloc::{AllocError, Global};

/// Whether `main` has no parameters and gives an `int`.
fn main_is_fine(parts: &Parts) -> bool
    ensures { Decides result (MainIsFine (reading_of parts.now)) }
{
    match parts.functions.as_slice().get(parts.main as usize) {
        None => false,
        Some(main) => {
            main.parameters == 0
                && match main.result {
                    Some(Storage::Number(NumberType::Int)) => true,
                    _ => false,
                }
        }
    }
}

/// The function of that number.
fn function_of(parts: &Parts, number: usize) -> &Function
    requires { number < length parts.now.functions }
    ensures { result.now ≡ function_at (reading_of parts.now) number }
{
    &parts.functions.as_slice()[number]
}

/// The first violation of an image, if it has one.
fn first_violation(alloc: Global, parts: &Parts) -> Result<Option<Violation>, AllocError>
    requires { FieldsFit parts.now }
    ensures { IfOk result (λ found. MatchOption found (Sound parts.now) (λ violation. FirstViolation parts.now violation)) }
{
    for number in 0..parts.functions.as_slice().len() {
        let found = check_code(alloc, parts, function_of(parts, number))?;
        match found {
            None => {}
            Some(broken) => {
                return Ok(Some(Violation {
                    rule: broken.rule,
                    function: number as u32,
                    instruction: broken.instruction,
                }));
            }
        }
    }
    if !main_is_fine(parts) {
        return Ok(Some(Violation {
            rule: Rule::Number,
            function: parts.main,
            instruction: 0,
        }));
    }
    Ok(None)
}

/// Whether the image keeps the rules of code, with its marks as they are.
///
/// # Errors
///
/// The first violation of the rules of code, or `Memory`.
pub fn sound(alloc: Global, image: &Image) -> Result<(), LoadFault>
    // What is let through is sound.
    ensures sound { IfOk result (λ _. Sound image.now) }
    // What isn't breaks a rule, first there, or there was no memory.
    ensures fault { IfErr result (λ fault. IsFault image.now fault) }
{
    match first_violation(alloc, image.parts()) {
        Err(_) => Err(LoadFault::Memory),
        Ok(Some(violation)) => Err(LoadFault::Broken(violation)),
        Ok(None) => Ok(()),
    }
}

/// Takes the mark of an instruction away.
fn unmark(instruction: &mut Instruction)
    ensures { instruction.new ≡ unmarked_instruction instruction.old }
{
    if let Instruction::Store(_, proved) = instruction {
        *proved = false;
    }
}

/// Takes the marks of code away.
fn unmark_code(code: &mut [Instruction])
    ensures { code.new ≡ map unmarked_instruction code.old }
{
    for at in 0..code.len() {
        unmark(&mut code[at]);
    }
}

/// Takes the marks of a function away.
fn unmark_function(alloc: Global, function: &mut Function)
    ensures { function.new ≡ unmarked_function function.old }
{
    let code = std::mem::replace(&mut function.code, Items::new(Vec::new(alloc)));
    let mut code = code.into_vec();
    unmark_code(&mut code);
    function.code = Items::new(code);
}

/// Takes the marks of functions away.
fn unmark_functions(alloc: Global, functions: &mut [Function])
    ensures { functions.new ≡ map unmarked_function functions.old }
{
    for number in 0..functions.len() {
        unmark_function(alloc, &mut functions[number]);
    }
}

/// The parts of an image with all marks taken away.
fn without_marks(alloc: Global, parts: Parts) -> Parts
    ensures { result ≡ unmarked parts }
{
    let mut functions = parts.functions.into_vec();
    unmark_functions(alloc, &mut functions);
    Parts {
        types: parts.types,
        globals: parts.globals,
        paths: parts.paths,
        functions: Items::new(functions),
        main: parts.main,
    }
}

/// The image, with the mark of every store taken away, so that each of them checks its annotation. The
/// image is given up where it isn't loaded.
///
/// # Errors
///
/// The first violation of the rules of code, or `Memory`.
pub fn load(alloc: Global, image: Image) -> Result<Loaded, LoadFault>
    // What is loaded is sound.
    ensures sound { IfOk result (λ loaded. Sound image) }
    // It is the image without marks.
    ensures unmarked { IfOk result (λ loaded. loaded ≡ unmarked image) }
    // What isn't loaded breaks a rule, first there, or there was no memory.
    ensures fault { IfErr result (λ fault. IsFault image fault) }
{
    match sound(alloc, &image) {
        Err(fault) => Err(fault),
        Ok(()) => Ok(Loaded::new(Image::new(without_marks(alloc, image.into_parts())))),
    }
}
