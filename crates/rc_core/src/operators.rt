// Operators on numbers, and the two ways in which a pointer is stepped.

/// An operator on one number (ISO C 6.5.3.3). `!` is apart, since it takes every type.
#[derive(Clone, Copy, Debug, PartialEq, Eq)]
pub enum UnaryOperator {
    Negate,
    Plus,
    Complement,
}

/// An operator on two numbers (ISO C 6.5.5 to 6.5.12).
#[derive(Clone, Copy, Debug, PartialEq, Eq)]
pub enum Operator {
    Multiply,
    Divide,
    Remainder,
    Add,
    Subtract,
    ShiftLeft,
    ShiftRight,
    Less,
    Greater,
    LessEqual,
    GreaterEqual,
    Equal,
    NotEqual,
    And,
    Xor,
    Or,
}

/// Which way a pointer is stepped.
#[derive(Clone, Copy, Debug, PartialEq, Eq)]
pub enum Direction {
    /// By as many elements as the number says.
    Forward,
    /// By as many elements the other way.
    Backward,
}
