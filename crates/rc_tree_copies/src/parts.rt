// Names, types and constants, where there are any.
ghost use Rattle.std.specs.Prelude.{◌≡◌, IfOk, option_map};
ghost use Rattle.rc_syntax.specs.Shape as written;
ghost use Rattle.rc_linking.specs.Moved as place;

use rc_base::NoMemory;
use rc_expression_copies::{copy_name, copy_type, spot};
use rc_syntax::tree::{Constant, Name, TypeName};
use std::alloc::Global;

/// A copy of a name, where there is one.
pub(crate) fn name_option(n: &Option<Name>, by: u32) -> Result<Option<Name>, NoMemory>
    ensures { IfOk result (λ r. r ≡ option_map (place.moved_name by) n.now) }
{
    match n {
        Some(n) => {
            let n = copy_name(n, by)?;
            Ok(Some(n))
        }
        None => Ok(None),
    }
}

/// A copy of a type, where there is one.
pub(crate) fn type_option(
    alloc: Global,
    n: &Option<TypeName>,
    by: u32,
) -> Result<Option<TypeName>, NoMemory>
    ensures { IfOk result (λ r. written.mapped written.type_of r ≡ option_map (place.moved_type by) (written.mapped written.type_of n.now)) }
{
    match n {
        Some(n) => {
            let n = copy_type(alloc, n, by)?;
            Ok(Some(n))
        }
        None => Ok(None),
    }
}

fn constant(c: &Constant, by: u32) -> Result<Constant, NoMemory>
    ensures { IfOk result (λ r. r ≡ place.moved_constant by c.now) }
{
    match c {
        Constant::Number(at, value, unsigned) => Ok(Constant::Number(
            spot(*at, by)?,
            *value,
            *unsigned,
        )),
        Constant::Negative(at, value, unsigned) => Ok(Constant::Negative(
            spot(*at, by)?,
            *value,
            *unsigned,
        )),
        Constant::Character(at, code) => Ok(Constant::Character(spot(*at, by)?, *code)),
        Constant::Null(at) => Ok(Constant::Null(spot(*at, by)?)),
        Constant::Eof(at) => Ok(Constant::Eof(spot(*at, by)?)),
    }
}

/// A copy of what a global begins with, where it has one.
pub(crate) fn constant_option(c: &Option<Constant>, by: u32) -> Result<Option<Constant>, NoMemory>
    ensures { IfOk result (λ r. r ≡ option_map (place.moved_constant by) c.now) }
{
    match c {
        Some(c) => {
            let c = constant(c, by)?;
            Ok(Some(c))
        }
        None => Ok(None),
    }
}
