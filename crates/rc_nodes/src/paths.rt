// The way from an element of an object inward, step by step.

ghost use Rattle.std.specs.Prelude.{◌≡◌, List, IfErr, IfOk};
ghost use Rattle.rc_base.specs.declared.ends.RunFault.TheVariants.{Memory};
ghost use Rattle.rc_core.specs.Heap.{Value as HeapValue};
ghost use Rattle.rc_core.specs.Programs.{Program};
ghost use Rattle.rc_core.specs.Shapes.{path_of};
ghost use Rattle.rc_frames.specs.Codes.{frames_of};
ghost use Rattle.rc_nodes.specs.Controls.{control_of};
ghost use Rattle.rc_core.specs.Laid.{AreLaidOut};
ghost use Rattle.rc_nodes.specs.Stepping.{along_step, doing};
ghost use Rattle.rc_values.specs.declared.stop.Stop.TheVariants.{Cut};

use crate::control::Control;
use rc_core::Layouts;
use rc_core::expr::PathStep;
use rc_frames::{Frame, Waiting};
use rc_values::{Stop, Target};

/// One step inward: to a field, or to the index of an array field. At the end of the way the place
/// comes out.
pub fn step_inward<'p>(
    layouts: &Layouts,
    frames: &mut Waiting<'p>,
    target: Target,
    path: &'p [PathStep],
) -> Result<Control<'p>, Stop>
    ensures goes { (program : Program) (env : List HeapValue) → AreLaidOut program.structs layouts.now → IfOk result (λ c. doing (control_of c) (frames_of frames.new) env ≡ along_step program target (path_of path.now) (frames_of frames.old) env) }
    ensures memory { IfErr result (λ stop. stop ≡ Cut Memory) }
{
    let mut target = target;
    let Some((step, rest)) = path.split_first() else {
        return Ok(Control::Aims(target));
    };
    match step {
        PathStep::Field { structure, field } => {
            target.go_further(layouts.field(*structure, *field).offset)?;
            Ok(Control::GoAlong(target, rest))
        }
        PathStep::Element {
            structure,
            field,
            index,
        } => {
            let place = layouts.field(*structure, *field);
            target.go_further(place.offset)?;
            frames.push(Frame::Element(target, place.count, place.stride, rest))?;
            Ok(Control::Evaluate(index))
        }
    }
}
