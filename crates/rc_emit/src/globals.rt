// Globals and strings.
ghost use Rattle.std.specs.Prelude.{◌≡◌, ◌++◌, ℕ, map, IfOk};
ghost use Rattle.rc_core.specs.Shapes.{bytes_of, global_of as source_global, ty_of};
ghost use Rattle.rc_core.specs.Types.{char, Ty as CleanTy};
ghost use Rattle.rc_core.specs.WellTyped.{elements};
ghost use Rattle.rc_numbering.specs.Numbered.{global_of, initial_of, string_of};
ghost use Rattle.rc_tables.specs.Placed.{path_number, type_number};
ghost use Rattle.rc_rlang.specs.RegionCode.{Access};

use rc_base::NoMemory;
use rc_code::{Global, Initial, Items};
use rc_core::parts::Global as Variable;
use rc_core::ty::Ty;
use rc_tables::{Numbers, word_of};

/// How many elements a global has.
fn elements(length: Option<u32>) -> u32
    ensures { result ≡ elements length }
{
    match length {
        None => 1,
        Some(count) => count,
    }
}

/// What a global begins with.
fn initial(ty: &Ty, length: Option<u32>, value: i64) -> Initial
    ensures { (number : CleanTy → ℕ) (path : Access → ℕ) → result ≡ initial_of number path (ty_of ty.now) length value }
{
    match length {
        Some(_count) => Initial::Zeros,
        None => match ty {
            Ty::Int => Initial::Number(word_of(value)),
            Ty::Unsigned => Initial::Number(word_of(value)),
            Ty::Char => Initial::Number(word_of(value)),
            Ty::Region => Initial::Zeros,
            Ty::Struct(_number) => Initial::Zeros,
            Ty::Pointer(_note, _target) => Initial::Zeros,
        },
    }
}

fn global(numbers: &Numbers<'_>, of: &Variable) -> Result<Global, NoMemory>
    ensures { IfOk result (λ r. r ≡ global_of (type_number numbers.now) (path_number numbers.now) (source_global of.now)) }
{
    Ok(Global {
        type_number: numbers.type_number(&of.ty)?,
        elements: elements(of.length),
        initial: initial(&of.ty, of.length, of.initial),
    })
}

/// A string, with the zero at its end.
fn string(numbers: &Numbers<'_>, element: &Ty, bytes: &[u8]) -> Result<Global, NoMemory>
    requires { ty_of element.now ≡ char }
    ensures { IfOk result (λ r. r ≡ string_of (type_number numbers.now) (path_number numbers.now) bytes.now) }
{
    let elements = bytes.len().checked_add(1).ok_or(NoMemory)?;
    let mut initial = Vec::from_slice(numbers.alloc, bytes)?;
    initial.push(0)?;
    Ok(Global {
        type_number: numbers.type_number(element)?,
        elements: u32::try_from(elements).map_err(|_| NoMemory)?,
        initial: Initial::Bytes(Items::new(initial)),
    })
}

/// The globals, and behind them the strings. `element` is `char`.
pub(crate) fn globals(
    numbers: &Numbers<'_>,
    variables: &[Variable],
    element: &Ty,
    strings: &[Vec<u8>],
) -> Result<Vec<Global>, NoMemory>
    requires { ty_of element.now ≡ char }
    ensures { IfOk result (λ r. r.items ≡ map (global_of (type_number numbers.now) (path_number numbers.now)) (map source_global variables.now) ++ map (string_of (type_number numbers.now) (path_number numbers.now)) (map bytes_of strings.now)) }
{
    let mut globals = Vec::new(numbers.alloc);
    for variable in variables {
        globals.push(global(numbers, variable)?)?;
    }
    for bytes in strings {
        globals.push(string(numbers, element, bytes.as_slice())?)?;
    }
    Ok(globals)
}
