// The table of instructions, without their operands: numbers and names.
ghost use Rattle.std.specs.Prelude.{◌≡◌};
ghost use Rattle.rc_code.specs.Table.{row, number_of, name_of, opcodes, numbered, operands_named};

use rc_core::ty::Signedness;

/// Arithmetic on two operands of one kind of numbers, or on one. Each instruction names the kind: `int` or `unsigned`.
#[derive(Clone, Copy, Debug, PartialEq, Eq)]
pub enum Arithmetic {
    /// `ADD`. Takes two numbers, and gives their sum.
    Add,
    /// `SUB`. Takes two numbers, and gives their difference.
    Subtract,
    /// `MUL`. Takes two numbers, and gives their product.
    Multiply,
    /// `DIV`. Takes two numbers, and gives their quotient.
    Divide,
    /// `REM`. Takes two numbers, and gives the remainder of their quotient.
    Remainder,
    /// `AND`. Bit by bit, on two numbers.
    And,
    /// `OR`. Bit by bit, on two numbers.
    Or,
    /// `XOR`. Bit by bit, on two numbers.
    Xor,
    /// `SHL`. Takes a number and an `int`, the count of bits.
    ShiftLeft,
    /// `SHR`. Takes a number and an `int`, the count of bits.
    ShiftRight,
    /// `NEG`. Takes a number, and gives its negative.
    Negate,
    /// `NOT`. Takes a number, and gives its bitwise complement.
    Complement,
    /// `EQ`. Takes two numbers, and gives an `int`, 1 or 0.
    Equal,
    /// `LT`. Takes two numbers, and gives an `int`, 1 or 0.
    Less,
    /// `LE`. Takes two numbers, and gives an `int`, 1 or 0.
    LessEqual,
}

/// An instruction on pointers that names their type.
#[derive(Clone, Copy, Debug, PartialEq, Eq)]
pub enum Typed {
    /// `NULLP`. A null pointer.
    Null,
    /// `EQP`. Takes two pointers, and gives 1 where they are equal, else 0.
    Same,
    /// `NILP`. Takes a pointer, and gives 1 where it is null, else 0.
    IsNull,
    /// `REGIONOF`. Takes a pointer, and gives the region that it points into.
    RegionOf,
    /// `RALLOC`. Takes a region, and gives a pointer to one new element in it.
    Allocate,
    /// `RARRAY`. Takes a region and an `int`, and gives a pointer to the first of that many new elements.
    AllocateArray,
}

/// Goes to another instruction of the function.
#[derive(Clone, Copy, Debug, PartialEq, Eq)]
pub enum Jump {
    /// `JUMP`. Forwards, always.
    Always,
    /// `JZ`. Takes an `int`, and goes forwards where it is 0.
    IfZero,
    /// `BACK`. Backwards, and takes a turn.
    Back,
}

/// An instruction without operands of its own.
#[derive(Clone, Copy, Debug, PartialEq, Eq)]
pub enum Simple {
    /// `NULLR`. Gives the null region.
    NullRegion,
    /// `EQR`. Takes two regions, and gives 1 where they are equal, else 0.
    SameRegion,
    /// `ZERO`. Takes an `int`, and gives 1 where it is 0, else 0.
    IsZero,
    /// `NILR`. Takes a region, and gives 1 where it is null, else 0.
    IsNullRegion,
    /// `TOI`. Takes an `unsigned`, and gives it as an `int`.
    ToInt,
    /// `TOU`. Takes an `int`, and gives it as an `unsigned`.
    ToUnsigned,
    /// `TOC`. Takes an `int`, and gives it modulo 256.
    ToChar,
    /// `NEWREGION`. Gives a new region below the traditional one.
    NewRegion,
    /// `NEWSUB`. Takes a region, and gives a new one below it.
    NewSubregion,
    /// `RET`. Takes the result, where the function has one, and leaves the function.
    Return,
    /// `PUT`. Takes an `int`, writes its byte, and gives the byte.
    PutChar,
    /// `GETC`. Gives the next byte of the input, or -1.
    GetChar,
    /// `POP`. Takes an operand of any kind.
    Pop,
}

/// What an operand is. Each is one number, but for pins.
#[derive(Clone, Copy, Debug, PartialEq, Eq)]
pub enum Operand {
    /// A value modulo 2^32. That of `INT` is signed.
    Value,
    /// The number of a global.
    Global,
    /// The number of a local.
    Local,
    /// The number of a path.
    Path,
    /// The number of a type.
    Type,
    /// The kind of numbers: 0 for `int` and 1 for `unsigned`.
    Kind,
    /// 0 for forwards and 1 for backwards.
    Direction,
    /// 1 where the check of the annotation is left out, else 0.
    Mark,
    /// The number of a function.
    Function,
    /// The number of an instruction of the function.
    Target,
    /// How many locals are pinned, and the number of each.
    Pins,
}

/// An instruction without its operands: a row of the table.
#[derive(Clone, Copy, Debug, PartialEq, Eq)]
pub enum Opcode {
    /// `INT`, `UNS`. Its operand is the value modulo 2^32.
    Constant(Signedness),
    /// `GLOBAL`. Its operand is the number of the global whose address it gives.
    Global,
    /// `GET`. Its operand is the number of the local whose value it gives.
    Get,
    /// `SET`. Its operand is the number of the local that takes the value.
    Set,
    /// `LOAD`. Its operand is the number of the path to the cell. It takes the path's pointer, its
    /// shift and its indices, and gives the cell's value.
    Load,
    /// Its operand is the number of a type.
    Typed(Typed),
    /// Its operand is the kind of its numbers.
    Arithmetic(Arithmetic),
    /// `MOVE`. Its operands are the number of a type, the kind of the number and the direction. It
    /// takes a pointer and a number, and gives the pointer that many elements further.
    Move,
    /// `STORE`. Its operands are the number of the path to the cell, and whether the check of the
    /// cell's annotation was proved to hold. It takes what `LOAD` does, and then the value.
    Store,
    /// No operands.
    Simple(Simple),
    /// `DELETE`. Its operands are the locals that it pins. It takes a region.
    Delete,
    /// `CALL`. Its operands are the number of the function and the locals that it pins. It takes the
    /// function's arguments, and gives its result, where it has one.
    Call,
    /// Its operand is the number of the target in the function.
    Jump(Jump),
}

const OPCODES: [Opcode; 47] = [
    Opcode::Constant(Signedness::Signed),
    Opcode::Constant(Signedness::Unsigned),
    Opcode::Simple(Simple::NullRegion),
    Opcode::Typed(Typed::Null),
    Opcode::Global,
    Opcode::Get,
    Opcode::Set,
    Opcode::Arithmetic(Arithmetic::Add),
    Opcode::Arithmetic(Arithmetic::Subtract),
    Opcode::Arithmetic(Arithmetic::Multiply),
    Opcode::Arithmetic(Arithmetic::Divide),
    Opcode::Arithmetic(Arithmetic::Remainder),
    Opcode::Arithmetic(Arithmetic::And),
    Opcode::Arithmetic(Arithmetic::Or),
    Opcode::Arithmetic(Arithmetic::Xor),
    Opcode::Arithmetic(Arithmetic::ShiftLeft),
    Opcode::Arithmetic(Arithmetic::ShiftRight),
    Opcode::Arithmetic(Arithmetic::Negate),
    Opcode::Arithmetic(Arithmetic::Complement),
    Opcode::Arithmetic(Arithmetic::Equal),
    Opcode::Arithmetic(Arithmetic::Less),
    Opcode::Arithmetic(Arithmetic::LessEqual),
    Opcode::Simple(Simple::SameRegion),
    Opcode::Typed(Typed::Same),
    Opcode::Simple(Simple::IsZero),
    Opcode::Simple(Simple::IsNullRegion),
    Opcode::Typed(Typed::IsNull),
    Opcode::Simple(Simple::ToInt),
    Opcode::Simple(Simple::ToUnsigned),
    Opcode::Simple(Simple::ToChar),
    Opcode::Move,
    Opcode::Load,
    Opcode::Store,
    Opcode::Simple(Simple::NewRegion),
    Opcode::Simple(Simple::NewSubregion),
    Opcode::Typed(Typed::RegionOf),
    Opcode::Typed(Typed::Allocate),
    Opcode::Typed(Typed::AllocateArray),
    Opcode::Delete,
    Opcode::Call,
    Opcode::Simple(Simple::Return),
    Opcode::Simple(Simple::PutChar),
    Opcode::Simple(Simple::GetChar),
    Opcode::Jump(Jump::Always),
    Opcode::Jump(Jump::IfZero),
    Opcode::Jump(Jump::Back),
    Opcode::Simple(Simple::Pop),
];

/// The number of an instruction, its name, and what its operands are, in their order.
type Row = (u8, &'static [u8], &'static [Operand]);

impl Opcode {
    /// Every row of the table, each at its number.
    #[tactic(auto, unfolding(crate::specs::Table::opcodes))]
    pub fn all() -> &'static [Opcode]
        ensures { result.now ≡ opcodes }
    {
        &OPCODES
    }

    /// The table: its number, its name, and what its operands are, in their order.
    fn row(self) -> Row
        ensures number { result.0 ≡ (row self).number }
        ensures name { result.1.now ≡ (row self).name }
        ensures operands { result.2.now ≡ (row self).operands }
    {
        match self {
            Opcode::Constant(Signedness::Signed) => (0, b"INT", &[Operand::Value]),
            Opcode::Constant(Signedness::Unsigned) => (1, b"UNS", &[Operand::Value]),
            Opcode::Simple(Simple::NullRegion) => (2, b"NULLR", &[]),
            Opcode::Typed(Typed::Null) => (3, b"NULLP", &[Operand::Type]),
            Opcode::Global => (4, b"GLOBAL", &[Operand::Global]),
            Opcode::Get => (5, b"GET", &[Operand::Local]),
            Opcode::Set => (6, b"SET", &[Operand::Local]),
            Opcode::Arithmetic(Arithmetic::Add) => (7, b"ADD", &[Operand::Kind]),
            Opcode::Arithmetic(Arithmetic::Subtract) => (8, b"SUB", &[Operand::Kind]),
            Opcode::Arithmetic(Arithmetic::Multiply) => (9, b"MUL", &[Operand::Kind]),
            Opcode::Arithmetic(Arithmetic::Divide) => (10, b"DIV", &[Operand::Kind]),
            Opcode::Arithmetic(Arithmetic::Remainder) => (11, b"REM", &[Operand::Kind]),
            Opcode::Arithmetic(Arithmetic::And) => (12, b"AND", &[Operand::Kind]),
            Opcode::Arithmetic(Arithmetic::Or) => (13, b"OR", &[Operand::Kind]),
            Opcode::Arithmetic(Arithmetic::Xor) => (14, b"XOR", &[Operand::Kind]),
            Opcode::Arithmetic(Arithmetic::ShiftLeft) => (15, b"SHL", &[Operand::Kind]),
            Opcode::Arithmetic(Arithmetic::ShiftRight) => (16, b"SHR", &[Operand::Kind]),
            Opcode::Arithmetic(Arithmetic::Negate) => (17, b"NEG", &[Operand::Kind]),
            Opcode::Arithmetic(Arithmetic::Complement) => (18, b"NOT", &[Operand::Kind]),
            Opcode::Arithmetic(Arithmetic::Equal) => (19, b"EQ", &[Operand::Kind]),
            Opcode::Arithmetic(Arithmetic::Less) => (20, b"LT", &[Operand::Kind]),
            Opcode::Arithmetic(Arithmetic::LessEqual) => (21, b"LE", &[Operand::Kind]),
            Opcode::Simple(Simple::SameRegion) => (22, b"EQR", &[]),
            Opcode::Typed(Typed::Same) => (23, b"EQP", &[Operand::Type]),
            Opcode::Simple(Simple::IsZero) => (24, b"ZERO", &[]),
            Opcode::Simple(Simple::IsNullRegion) => (25, b"NILR", &[]),
            Opcode::Typed(Typed::IsNull) => (26, b"NILP", &[Operand::Type]),
            Opcode::Simple(Simple::ToInt) => (27, b"TOI", &[]),
            Opcode::Simple(Simple::ToUnsigned) => (28, b"TOU", &[]),
            Opcode::Simple(Simple::ToChar) => (29, b"TOC", &[]),
            Opcode::Move => (
                30,
                b"MOVE",
                &[Operand::Type, Operand::Kind, Operand::Direction],
            ),
            Opcode::Load => (31, b"LOAD", &[Operand::Path]),
            Opcode::Store => (32, b"STORE", &[Operand::Path, Operand::Mark]),
            Opcode::Simple(Simple::NewRegion) => (33, b"NEWREGION", &[]),
            Opcode::Simple(Simple::NewSubregion) => (34, b"NEWSUB", &[]),
            Opcode::Typed(Typed::RegionOf) => (35, b"REGIONOF", &[Operand::Type]),
            Opcode::Typed(Typed::Allocate) => (36, b"RALLOC", &[Operand::Type]),
            Opcode::Typed(Typed::AllocateArray) => (37, b"RARRAY", &[Operand::Type]),
            Opcode::Delete => (38, b"DELETE", &[Operand::Pins]),
            Opcode::Call => (39, b"CALL", &[Operand::Function, Operand::Pins]),
            Opcode::Simple(Simple::Return) => (40, b"RET", &[]),
            Opcode::Simple(Simple::PutChar) => (41, b"PUT", &[]),
            Opcode::Simple(Simple::GetChar) => (42, b"GETC", &[]),
            Opcode::Jump(Jump::Always) => (43, b"JUMP", &[Operand::Target]),
            Opcode::Jump(Jump::IfZero) => (44, b"JZ", &[Operand::Target]),
            Opcode::Jump(Jump::Back) => (45, b"BACK", &[Operand::Target]),
            Opcode::Simple(Simple::Pop) => (46, b"POP", &[]),
        }
    }

    /// Its number in the table, at most 46.
    pub fn number(self) -> u8
        ensures { result ≡ number_of self }
    {
        self.row().0
    }

    /// Its name in the table.
    pub fn name(self) -> &'static [u8]
        ensures { result.now ≡ name_of self }
    {
        self.row().1
    }

    /// What its operands are, in their order.
    pub fn operands(self) -> &'static [Operand]
        ensures { result.now ≡ operands_named self }
    {
        self.row().2
    }

    /// The row of that number, or none where the number is over 46.
    pub fn numbered(number: u32) -> Option<Opcode>
        ensures { result ≡ numbered number }
    {
        Opcode::all().get(number as usize).copied()
    }
}
