// Where the run may go from an instruction, and what it asks.
ghost use Rattle.std.specs.Prelude.{◌≡◌, ℕ, true, false};
ghost use Rattle.rc_rlang.specs.RegionFlow.{Effect as AnyEffect};
ghost use Rattle.rc_code.specs.declared.instruction.Instruction.TheVariants as instruction;
ghost use Rattle.rc_graph.specs.Nodes.{effect_of};
ghost use Rattle.rc_annotations.specs.Annotations.{asked, asked_of};
ghost use Rattle.rc_image_steps.specs.Ways.{arguments_in, asks_of, ways_of};

use rc_code::{Instruction, Jump, Simple};
use rc_core::ty::Note;
use rc_facts::Fact;
use rc_graph::Effect;

/// Where the run may go from an instruction.
#[derive(Clone, Copy)]
pub(crate) struct Ways {
    /// Whether it may go on to the next one.
    pub(crate) falls: bool,
    /// Whether it may go to a target.
    pub(crate) leads: bool,
    /// The target, if there is one.
    pub(crate) to: u32,
    /// Whether it leaves the function.
    pub(crate) leaves: bool,
}

/// What an instruction asks of the facts before it.
#[derive(Clone, Copy)]
pub(crate) enum Asks {
    /// Those of the entry of the function of that number.
    Entry(u32),
    /// What the check of its store asks.
    Check,
    Nothing,
}

/// The ways of an instruction that leads to a target.
fn leading(falls: bool, to: u32) -> Ways
    ensures { result ≡ record { falls = falls; leads = true; to = to; leaves = false } }
{
    Ways {
        falls,
        leads: true,
        to,
        leaves: false,
    }
}

/// The ways of a jump.
fn of_jump(jump: Jump, to: u32) -> Ways
    ensures { result ≡ ways_of (instruction.Jump jump to) }
{
    match jump {
        Jump::Always | Jump::Back => leading(false, to),
        Jump::IfZero => leading(true, to),
    }
}

/// The ways of an instruction without operands of its own.
fn of_simple(simple: Simple) -> Ways
    ensures { result ≡ ways_of (instruction.Simple simple) }
{
    match simple {
        Simple::Return => Ways {
            falls: false,
            leads: false,
            to: 0,
            leaves: true,
        },
        _ => Ways {
            falls: true,
            leads: false,
            to: 0,
            leaves: false,
        },
    }
}

/// The ways of an instruction.
pub(crate) fn ways_of(instruction: &Instruction) -> Ways
    ensures { result ≡ ways_of instruction.now }
{
    match instruction {
        Instruction::Jump(jump, to) => of_jump(*jump, *to),
        Instruction::Simple(simple) => of_simple(*simple),
        _ => Ways {
            falls: true,
            leads: false,
            to: 0,
            leaves: false,
        },
    }
}

/// What a store asks.
fn of_store(path: u32, proved: bool) -> Asks
    ensures { result ≡ asks_of (instruction.Store path proved) }
{
    if proved { Asks::Check } else { Asks::Nothing }
}

/// What an instruction asks.
pub(crate) fn asks_of(instruction: &Instruction) -> Asks
    ensures { result ≡ asks_of instruction.now }
{
    match instruction {
        Instruction::Call(number, _) => Asks::Entry(*number),
        Instruction::Store(path, proved) => of_store(*path, *proved),
        _ => Asks::Nothing,
    }
}

/// The variables of the arguments of a call.
pub(crate) fn arguments_of(effect: &Effect) -> &[u32]
    ensures { result.now ≡ arguments_in (effect_of effect.now) }
{
    match effect {
        Effect::Called { arguments, .. } => arguments.as_slice(),
        _ => &[],
    }
}

/// The fact that a value of a cell with this annotation asks.
fn asked(note: Note, value: u32, holder: u32) -> Option<Fact>
    ensures { result ≡ asked note value holder }
{
    match note {
        Note::Plain => None,
        Note::SameRegion => Some(Fact::In(value, holder)),
        Note::ParentPtr => Some(Fact::Up(value, holder)),
        Note::Traditional => Some(Fact::Trad(value)),
    }
}

/// The fact that a store asks.
pub(crate) fn asked_of(effect: &Effect) -> Option<Fact>
    ensures { result ≡ asked_of (effect_of effect.now) }
{
    match effect {
        Effect::Stored(value, holder, note) => asked(*note, *value, *holder),
        _ => None,
    }
}
