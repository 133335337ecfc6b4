// The marks of stores.
ghost use Rattle.std.specs.Prelude.{◌≡◌, false, drop, get_or};
ghost use Rattle.rc_marking.specs.Marking.{left_by_code, left_by_functions, left_by_one, marked_code, marked_function, marked_functions, marked_one, note_at, with_marks};

use crate::reached::note_at;
use rc_code::{Function, Image, Instruction, Items, Parts};
use rc_core::ty::Note;
use std::alloc::Global;
use std::mem::replace;

/// The first of the bits, and those behind it.
fn first(bits: &[bool]) -> (bool, &[bool])
    ensures bit { result.0 ≡ get_or bits.now 0 false }
    ensures behind { result.1.now ≡ drop 1 bits.now }
{
    match bits {
        [] => (false, bits),
        [bit, behind @ ..] => (*bit, behind),
    }
}

/// Marks an instruction by the first of the bits, if it stores to an annotated cell of the image.
/// Gives the bits that are left.
fn mark_one<'b>(parts: &Parts, bits: &'b [bool], instruction: &mut Instruction) -> &'b [bool]
    ensures marked { instruction.new ≡ marked_one (note_at parts.now) bits.now instruction.old }
    ensures left { result.now ≡ left_by_one (note_at parts.now) bits.now instruction.old }
{
    let Instruction::Store(path, proved) = instruction else {
        return bits;
    };
    match note_at(parts, *path) {
        Note::Plain => bits,
        Note::SameRegion | Note::ParentPtr | Note::Traditional => {
            let (bit, behind) = first(bits);
            *proved = bit;
            behind
        }
    }
}

/// Marks the stores of code. Gives the bits that are left.
fn mark_code<'b>(parts: &Parts, bits: &'b [bool], code: &mut [Instruction]) -> &'b [bool]
    ensures marked { code.new ≡ marked_code (note_at parts.now) bits.now code.old }
    ensures left { result.now ≡ left_by_code (note_at parts.now) bits.now code.old }
{
    let mut rest = bits;
    for at in 0..code.len() {
        rest = mark_one(parts, rest, &mut code[at]);
    }
    rest
}

/// Marks the stores of a function. Gives the bits that are left.
fn mark_function<'b>(
    alloc: Global,
    parts: &Parts,
    bits: &'b [bool],
    function: &mut Function,
) -> &'b [bool]
    ensures marked { function.new ≡ marked_function (note_at parts.now) bits.now function.old }
    ensures left { result.now ≡ left_by_code (note_at parts.now) bits.now function.old.code }
{
    let code = replace(&mut function.code, Items::new(Vec::new(alloc)));
    let mut code = code.into_vec();
    let rest = mark_code(parts, bits, &mut code);
    function.code = Items::new(code);
    rest
}

/// Marks the stores of functions, one function after another.
fn mark_functions(alloc: Global, parts: &Parts, bits: &[bool], functions: &mut [Function])
    ensures { functions.new ≡ marked_functions (note_at parts.now) bits.now functions.old }
{
    let mut rest = bits;
    for number in 0..functions.len() {
        rest = mark_function(alloc, parts, rest, &mut functions[number]);
    }
}

/// The parts of an image with these bits as the marks of its stores to annotated cells.
fn with_marks(alloc: Global, parts: Parts, bits: &[bool]) -> Parts
    ensures { result ≡ with_marks bits.now parts }
{
    let mut parts = parts;
    let functions = replace(&mut parts.functions, Items::new(Vec::new(alloc)));
    let mut functions = functions.into_vec();
    mark_functions(alloc, &parts, bits, &mut functions);
    parts.functions = Items::new(functions);
    parts
}

/// The image with these bits as the marks of its stores to annotated cells, in the order in which the
/// stores stand: where a bit is set, the store makes no check. It takes one pass and no memory.
pub fn mark(alloc: Global, image: Image, bits: &[bool]) -> Image
    ensures { result ≡ with_marks bits.now image }
{
    Image::new(with_marks(alloc, image.into_parts(), bits))
}
