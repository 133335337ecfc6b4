// Instructions of stack code.

use rc_core::operators::{Direction, Operator, UnaryOperator};
use rc_core::ty::{NumberType, Signedness, Ty};
use rc_rlang::access::Access;

/// A cell that is read or written: that of an access, or one so many cells further.
#[derive(Clone, Copy)]
pub struct Reach<'a> {
    pub access: &'a Access,
    pub further: u32,
}

/// An instruction of stack code, but for what no image says of it: the type of a local that is set,
/// the kind of a cell, the cells of what is made, the types of a call's arguments and of what is
/// given back.
#[derive(Clone, Copy)]
pub enum Instruction<'a> {
    Number(Signedness, i64),
    Null(&'a Ty),
    Global(u32),
    Get(u32),
    Set(u32),
    Arithmetic(Operator, Signedness),
    Unary(UnaryOperator, Signedness),
    /// 1 where a number is zero, else 0.
    ZeroTest,
    /// 1 where a region or pointer of this type is null, else 0.
    NullTest(&'a Ty),
    /// 1 where two regions or pointers of this type are equal, else 0.
    Same(&'a Ty),
    Convert(NumberType),
    /// Moves a pointer of this type.
    Move(&'a Ty, Signedness, Direction),
    Load(Reach<'a>),
    Store(Reach<'a>),
    NewRegion,
    NewSubregion,
    RegionOf(&'a Ty),
    Allocate(&'a Ty),
    AllocateArray(&'a Ty),
    /// With the locals that are pinned.
    Delete(&'a [u32]),
    /// A function, with the locals that are pinned.
    Call(u32, &'a [u32]),
    Leave,
    Putchar,
    Getchar,
    /// Past so many instructions.
    Jump(u32),
    /// Past so many instructions where an `int` is 0.
    JumpZero(u32),
    /// To the instruction from which on there are so many up to the end of the function.
    Back(u32),
    Pop,
}

/// An instruction, and the line of the source that it was made for.
#[derive(Clone, Copy)]
pub struct Line<'a> {
    pub line: u32,
    pub instruction: Instruction<'a>,
}

/// When a jump is taken.
#[derive(Clone, Copy)]
pub(crate) enum When {
    Always,
    /// Where an `int` is 0.
    IfZero,
}
