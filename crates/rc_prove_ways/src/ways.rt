// Where the run may go from an instruction.
ghost use Rattle.std.specs.Prelude.{◌≡◌, true, false, MatchOption};
ghost use Rattle.rc_code.specs.declared.instruction.Instruction.TheVariants as instruction;
ghost use Rattle.rc_image_steps.specs.Ways.{ways_of};

use rc_code::{Instruction, Jump, Simple};

fn jump_falls(jump: Jump, to: u32) -> bool
    ensures { result ≡ (ways_of (instruction.Jump jump to)).falls }
{
    match jump {
        Jump::IfZero => true,
        Jump::Always | Jump::Back => false,
    }
}

fn simple_falls(simple: Simple) -> bool
    ensures { result ≡ (ways_of (instruction.Simple simple)).falls }
{
    match simple {
        Simple::Return => false,
        _ => true,
    }
}

/// Whether the run may go on to the next instruction.
pub(crate) fn falls(instruction: &Instruction) -> bool
    ensures { result ≡ (ways_of instruction.now).falls }
{
    match instruction {
        Instruction::Jump(jump, to) => jump_falls(*jump, *to),
        Instruction::Simple(simple) => simple_falls(*simple),
        _ => true,
    }
}

/// The target to which the instruction may lead, if it is a jump.
pub(crate) fn target_of(instruction: &Instruction) -> Option<u32>
    ensures { MatchOption result ((ways_of instruction.now).leads ≡ false) (λ to. ((ways_of instruction.now).leads ≡ true) × ((ways_of instruction.now).to ≡ to)) }
{
    match instruction {
        Instruction::Jump(_, to) => Some(*to),
        _ => None,
    }
}
