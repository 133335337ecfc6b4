// The shape of a function.
ghost use Rattle.std.specs.Prelude.{◌≡◌, ◌<◌, ◌≤◌, length, IfOk};
ghost use Rattle.rc_code.specs.Image.{FieldsFit};
ghost use Rattle.rc_code.specs.Running.{function_at, reading_of};
ghost use Rattle.rc_code.specs.Soundness.{Sound};
ghost use Rattle.rc_claims.specs.Counts.{copies};
ghost use Rattle.rc_sealed.specs.Faults.{IsWide};
ghost use Rattle.rc_image_shapes.specs.Shapes.{IsShape};

use crate::counts::{copies_of, counts_of};
use crate::tables::{local_variables, targets_of};
use rc_base::NoMemory;
use rc_code::Parts;
use rc_image_counts::function_of;
use std::alloc::Global;

/// What is counted once of a function.
#[derive(Drop)]
pub struct Shape {
    /// How many hidden copies it has.
    pub copies: u32,
    /// The variable of its first stack place.
    pub first: u32,
    /// The variable of its result.
    pub result: u32,
    /// For each local the variable that it has, if it is a region or a pointer.
    pub locals: Vec<u32>,
    /// For each instruction whether a jump leads to it.
    pub targets: Vec<bool>,
}

/// A variable of a function that isn't wide.
fn narrow(variable: usize) -> u32
    requires { variable ≤ 128 }
    ensures { result ≡ variable }
{
    variable as u32
}

/// The shape of a function that isn't wide.
///
/// # Errors
///
/// Out of memory.
pub fn shape_of(alloc: Global, parts: &Parts, number: u32) -> Result<Shape, NoMemory>
    requires fields { FieldsFit parts.now }
    requires sound { Sound parts.now }
    requires there { number < length parts.now.functions }
    requires narrow { IsWide parts.now number → ⊥ }
    ensures { IfOk result (λ shape. IsShape (reading_of parts.now) (function_at (reading_of parts.now) number) shape) }
{
    let function = function_of(parts, number);
    let counts = counts_of(parts, function);
    let copies = narrow(counts.copies);
    let locals = local_variables(alloc, function.locals.as_slice(), copies)?;
    let targets = targets_of(alloc, function.code.as_slice())?;
    Ok(Shape {
        copies,
        first: narrow(counts.first),
        result: narrow(counts.result),
        locals,
        targets,
    })
}

/// How many hidden copies a function has that isn't wide.
pub fn copies_in(parts: &Parts, number: u32) -> u32
    requires fields { FieldsFit parts.now }
    requires there { number < length parts.now.functions }
    requires narrow { IsWide parts.now number → ⊥ }
    ensures copies { result ≡ copies (function_at (reading_of parts.now) number) }
    ensures few { result < 128 }
{
    narrow(copies_of(function_of(parts, number)))
}
