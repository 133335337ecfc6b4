// The points of parts of code, as far as a `u32` counts them.
ghost use Rattle.std.specs.Prelude.{◌≡◌, List, IfOk};
ghost use Rattle.rc_core.specs.Laid.{AreLaidOut};
ghost use Rattle.rc_core.specs.Programs.{Struct};
ghost use Rattle.rc_rlang.specs.Counted.{AreLayouts};
ghost use Rattle.rc_rlang.specs.RegionPoints.{steps_points, act_points, code_points};
ghost use Rattle.rc_rlang.specs.Shapes.{steps_of, act_of, code_of};

use rc_base::NoMemory;
use rc_core::Layouts;
use rc_rlang::code::{Act, Code};
use rc_rlang::steps::Step;

/// The points of steps.
pub(crate) fn steps_points(steps: &[Step]) -> Result<u32, NoMemory>
    ensures { (structs : List Struct) → IfOk result (λ n. n ≡ steps_points (steps_of structs steps.now)) }
{
    let Some(points) = rc_rlang::steps_points(steps) else {
        return Err(NoMemory);
    };
    Ok(points)
}

/// The points of an act.
pub(crate) fn act_points(layouts: &Layouts, act: &Act) -> Result<u32, NoMemory>
    requires laid { AreLayouts layouts.now }
    ensures { (structs : List Struct) → AreLaidOut structs layouts.now → IfOk result (λ n. n ≡ act_points (act_of structs act.now)) }
{
    let Some(points) = rc_rlang::act_points(layouts, act) else {
        return Err(NoMemory);
    };
    Ok(points)
}

/// The points of the code of a statement.
pub(crate) fn code_points(layouts: &Layouts, code: &Code) -> Result<u32, NoMemory>
    requires laid { AreLayouts layouts.now }
    ensures { (structs : List Struct) → AreLaidOut structs layouts.now → IfOk result (λ n. n ≡ code_points (code_of structs code.now)) }
{
    let Some(points) = rc_rlang::code_points(layouts, code) else {
        return Err(NoMemory);
    };
    Ok(points)
}
