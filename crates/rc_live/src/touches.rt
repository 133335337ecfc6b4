// What operations do to the locals of their function.
ghost use Rattle.std.specs.Prelude.{◌≡◌, List};
ghost use Rattle.rc_core.specs.Programs.{Struct};
ghost use Rattle.rc_rlang.specs.Shapes.{operation_of};
ghost use Rattle.rc_rlang.specs.Touches.{operation_touch};
ghost use Rattle.rc_live.specs.Walking.{touch_in};

use rc_rlang::steps::Operation;

/// What an operation does to the locals of its function.
pub(crate) enum Touched {
    Nothing,
    Reads(u32),
    Calls(u32),
}

/// What an operation does to the locals of its function.
pub(crate) fn touch(operation: &Operation) -> Touched
    ensures { (structs : List Struct) → touch_in result ≡ operation_touch (operation_of structs operation.now) }
{
    match operation {
        Operation::Constant { .. } => Touched::Nothing,
        Operation::Null => Touched::Nothing,
        Operation::Static { .. } => Touched::Nothing,
        Operation::Copy { local } => Touched::Reads(*local),
        Operation::Load { .. } => Touched::Nothing,
        Operation::Step { .. } => Touched::Nothing,
        Operation::StepFrom { .. } => Touched::Nothing,
        Operation::Unary { .. } => Touched::Nothing,
        Operation::Binary { .. } => Touched::Nothing,
        Operation::Convert { .. } => Touched::Nothing,
        Operation::NotZero { .. } => Touched::Nothing,
        Operation::Truth { .. } => Touched::Nothing,
        Operation::IsNull { .. } => Touched::Nothing,
        Operation::Same { .. } => Touched::Nothing,
        Operation::Call { function, .. } => Touched::Calls(*function),
        Operation::NewRegion => Touched::Nothing,
        Operation::NewSubregion => Touched::Nothing,
        Operation::RegionOf { .. } => Touched::Nothing,
        Operation::Allocate { .. } => Touched::Nothing,
        Operation::AllocateArray { .. } => Touched::Nothing,
        Operation::Putchar => Touched::Nothing,
        Operation::Getchar => Touched::Nothing,
    }
}
