// Places: the pointer, the index and the indices inward, from left to right.

ghost use Rattle.std.specs.Prelude.{◌≡◌, List, IfOk, IfErr};
ghost use Rattle.rc_base.specs.declared.ends.RunFault.TheVariants.{Memory};
ghost use Rattle.rc_core.specs.Programs.{Program};
ghost use Rattle.rc_core.specs.Heap.{Value as HeapValue};
ghost use Rattle.rc_core.specs.Shapes.{path_of, place_of};
ghost use Rattle.rc_core.specs.Evaluation.{choosing, number_in};
ghost use Rattle.rc_frames.specs.Codes.{frames_of};
ghost use Rattle.rc_nodes.specs.Controls.{control_of};
ghost use Rattle.rc_frames.specs.Frames.{Frame as MachineFrame};
ghost use Rattle.rc_nodes.specs.Stepping.{doing, going_along, index_step, pointer_step, start};
ghost use Rattle.rc_values.specs.Values.{value_of};
ghost use Rattle.rc_values.specs.declared.stop.Stop.TheVariants.{Cut};

use crate::control::Control;
use rc_core::expr::{PathStep, Place};
use rc_frames::{Frame, Waiting};
use rc_values::{Chosen, Stop, Target, Value, aimed, number_in, static_pointer};
use std::alloc::Global;

#[tactic(auto, using(rc_core::proofs::ShapeRows::global_is))]
/// Begins to evaluate a place.
pub(crate) fn begin_place<'p>(
    alloc: Global,
    frames: &mut Waiting<'p>,
    place: &'p Place,
) -> Result<Control<'p>, Stop>
    ensures starts { IfOk result (λ c. (program : Program) (env : List HeapValue) → doing (control_of c) (frames_of frames.new) env ≡ start program (place_of place.now) (frames_of frames.old) env) }
    ensures memory { IfErr result (λ stop. stop ≡ Cut Memory) }
{
    match place {
        Place::Global { global, path } => {
            let pointer = static_pointer(*global as u64);
            Ok(Control::GoAlong(aimed(alloc, pointer, 0), path.as_slice()))
        }
        Place::Pointed { pointer, .. } => {
            frames.push(Frame::Pointer(place))?;
            Ok(Control::Evaluate(pointer))
        }
        Place::Indexed { pointer, .. } => {
            frames.push(Frame::Pointer(place))?;
            Ok(Control::Evaluate(pointer))
        }
    }
}

#[tactic(auto, using(rc_core::proofs::ShapeRows::global_is, rc_core::proofs::ShapeRows::pointed_is, rc_core::proofs::ShapeRows::indexed_is))]
/// The pointer of a place was evaluated.
pub fn pointer_to_place<'p>(
    alloc: Global,
    frames: &mut Waiting<'p>,
    place: &'p Place,
    pointer: Value,
) -> Result<Control<'p>, Stop>
    ensures points { IfOk result (λ c. (program : Program) (env : List HeapValue) → doing (control_of c) (frames_of frames.new) env ≡ pointer_step program (place_of place.now) (value_of pointer) (frames_of frames.old) env) }
    ensures memory { IfErr result (λ stop. stop ≡ Cut Memory) }
{
    match place {
        Place::Global { .. } => Ok(Control::Aims(aimed(alloc, pointer, 0))),
        Place::Pointed { path, .. } => Ok(Control::GoAlong(
            aimed(alloc, pointer, 0),
            path.as_slice(),
        )),
        Place::Indexed { index, .. } => {
            frames.push(Frame::Index(place, pointer))?;
            Ok(Control::Evaluate(index))
        }
    }
}

#[tactic(auto, using(rc_core::proofs::ShapeRows::global_is, rc_core::proofs::ShapeRows::pointed_is, rc_core::proofs::ShapeRows::indexed_is))]
/// The index of a place was evaluated.
pub fn index_to_place<'p>(
    alloc: Global,
    place: &'p Place,
    pointer: Value,
    index: Value,
) -> Control<'p>
    ensures { (program : Program) (frames : List MachineFrame) (env : List HeapValue) → doing (control_of result) frames env ≡ index_step program (place_of place.now) (value_of pointer) (value_of index) frames env }
{
    match place {
        Place::Global { .. } => Control::Aims(aimed(alloc, pointer, 0)),
        Place::Pointed { .. } => Control::Aims(aimed(alloc, pointer, 0)),
        Place::Indexed { path, .. } => Control::GoAlong(
            aimed(alloc, pointer, number_in(index)),
            path.as_slice(),
        ),
    }
}

/// The index of an array field was evaluated.
pub fn index_to_path<'p>(
    target: Target,
    index: Value,
    count: u64,
    stride: u64,
    path: &'p [PathStep],
) -> Result<Control<'p>, Stop>
    ensures goes { IfOk result (λ c. control_of c ≡ going_along (choosing (record { index = number_in (value_of index); count = count; stride = stride }) target) (path_of path.now)) }
    ensures memory { IfErr result (λ stop. stop ≡ Cut Memory) }
{
    let mut target = target;
    target.choose(Chosen {
        index: number_in(index),
        count,
        stride,
    })?;
    Ok(Control::GoAlong(target, path))
}
