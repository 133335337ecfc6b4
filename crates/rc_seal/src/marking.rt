// An image with marks.
ghost use Rattle.std.specs.Prelude.{◌≡◌, [], false, map, get_or};
ghost use Rattle.rc_seal.specs.Marking.{bits_of, marked_code, marked_function, marked_functions, marked_instruction, with_marks, IsMarked};

use rc_code::{Function, Image, Instruction, Items, Parts};
use std::alloc::Global;

/// Gives an instruction the mark, if it is a store.
fn mark(instruction: &mut Instruction, so: bool)
    ensures { instruction.new ≡ marked_instruction so instruction.old }
{
    if let Instruction::Store(_, proved) = instruction {
        *proved = so;
    }
}

/// The mark of that number, if there is one.
fn mark_at(marks: &[bool], at: usize) -> bool
    ensures { result ≡ get_or marks.now at false }
{
    match marks.get(at) {
        Some(mark) => *mark,
        None => false,
    }
}

/// The marks of the function of that number, if there are some.
fn marks_at(marks: &[Vec<bool>], number: usize) -> &[bool]
    ensures { result.now ≡ get_or (map bits_of marks.now) number [] }
{
    match marks.get(number) {
        Some(marks) => marks.as_slice(),
        None => &[],
    }
}

/// Gives each store of code the mark of its number.
fn mark_code(code: &mut [Instruction], marks: &[bool])
    ensures { code.new ≡ marked_code marks.now code.old }
{
    for at in 0..code.len() {
        mark(&mut code[at], mark_at(marks, at));
    }
}

/// Gives a function these marks.
fn mark_function(alloc: Global, function: &mut Function, marks: &[bool])
    ensures { function.new ≡ marked_function marks.now function.old }
{
    let code = std::mem::replace(&mut function.code, Items::new(Vec::new(alloc)));
    let mut code = code.into_vec();
    mark_code(&mut code, marks);
    function.code = Items::new(code);
}

/// Gives each function its marks.
fn mark_functions(alloc: Global, functions: &mut [Function], marks: &[Vec<bool>])
    ensures { functions.new ≡ marked_functions (map bits_of marks.now) functions.old }
{
    for number in 0..functions.len() {
        mark_function(alloc, &mut functions[number], marks_at(marks, number));
    }
}

/// The parts of an image with these marks.
fn marked_parts(alloc: Global, parts: Parts, marks: &[Vec<bool>]) -> Parts
    ensures { result ≡ with_marks (map bits_of marks.now) parts }
{
    let mut functions = parts.functions.into_vec();
    mark_functions(alloc, &mut functions, marks);
    Parts {
        types: parts.types,
        globals: parts.globals,
        paths: parts.paths,
        functions: Items::new(functions),
        main: parts.main,
    }
}

/// An image with these marks in place of its own, a list for each function with one for each instruction.
pub(crate) fn marked(alloc: Global, image: Image, marks: &[Vec<bool>]) -> Image
    ensures { IsMarked (map bits_of marks.now) image result }
{
    Image::new(marked_parts(alloc, image.into_parts(), marks))
}
