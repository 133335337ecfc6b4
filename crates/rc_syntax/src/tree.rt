// Trees: what the grammar reads from the words of a text.

use crate::word::Text;

/// Where a node begins.
#[derive(Clone, Copy, Debug, PartialEq, Eq)]
pub struct Spot {
    /// The number of its first word, from 0.
    pub place: u32,
    /// The line of that word, from 1.
    pub line: u32,
}

/// A name where it stands: of a variable, a function, a field, a parameter or a struct.
#[derive(Debug, Drop)]
pub struct Name {
    pub spot: Spot,
    pub text: Text,
}

/// What a star says of the region that its pointers lead to.
#[derive(Clone, Copy, Debug, PartialEq, Eq)]
pub enum Note {
    /// No annotation.
    Plain,
    SameRegion,
    ParentPtr,
    Traditional,
}

/// The word or words that a type begins with.
#[derive(Debug, Drop)]
pub enum Base {
    Int(Spot),
    /// `unsigned`, or `unsigned int`.
    Unsigned(Spot),
    Char(Spot),
    Region(Spot),
    /// `struct` and a name, which has a spot of its own.
    Struct(Spot, Name),
}

/// A type as it is written: a base, and a note for each star behind it, in their order.
#[derive(Debug, Drop)]
pub struct TypeName {
    pub base: Base,
    pub stars: Vec<Note>,
}

/// The type of a cast.
#[derive(Clone, Copy, Debug, PartialEq, Eq)]
pub enum CastType {
    Int,
    Unsigned,
    Char,
}

/// An operator before its operand (ISO C 6.5.3).
#[derive(Clone, Copy, Debug, PartialEq, Eq)]
pub enum UnaryOp {
    Minus,
    Plus,
    Not,
    Complement,
    Dereference,
    Address,
}

/// An operator between two operands (ISO C 6.5.5 to 6.5.14).
#[derive(Clone, Copy, Debug, PartialEq, Eq)]
pub enum BinaryOp {
    LogicalOr,
    LogicalAnd,
    BitOr,
    BitXor,
    BitAnd,
    Equal,
    NotEqual,
    Less,
    Greater,
    LessEqual,
    GreaterEqual,
    ShiftLeft,
    ShiftRight,
    Add,
    Subtract,
    Multiply,
    Divide,
    Remainder,
}

/// `++` or `--`.
#[derive(Clone, Copy, Debug, PartialEq, Eq)]
pub enum StepOp {
    Increment,
    Decrement,
}

/// An expression. Parentheses make no node: a node in parentheses begins behind them.
#[derive(Debug, Drop)]
pub enum Expr {
    /// The value of a number, and whether it is `unsigned`.
    Number(Spot, u32, bool),
    Character(Spot, u8),
    Str(Spot, Text),
    Null(Spot),
    Eof(Spot),
    Variable(Name),
    /// A call, which begins at the called name.
    Call(Name, Vec<Expr>),
    Ralloc(Spot, Box<Expr>, TypeName),
    RarrayAlloc(Spot, Box<Expr>, Box<Expr>, TypeName),
    Index(Spot, Box<Expr>, Box<Expr>),
    /// `.` and a field.
    Member(Spot, Box<Expr>, Name),
    /// `->` and a field.
    Arrow(Spot, Box<Expr>, Name),
    Unary(Spot, UnaryOp, Box<Expr>),
    Cast(Spot, CastType, Box<Expr>),
    Binary(Spot, BinaryOp, Box<Expr>, Box<Expr>),
    /// `?` and `:`.
    Conditional(Spot, Box<Expr>, Box<Expr>, Box<Expr>),
}

/// What a statement or the head of a `for` does by itself.
#[derive(Debug, Drop)]
pub enum Simple {
    Expr(Expr),
    /// A left side, and what `=` gives it.
    Assign(Spot, Expr, Expr),
    /// A left side, and what it is combined with, as in `+=`.
    Update(Spot, BinaryOp, Expr, Expr),
    /// `++` or `--` behind its left side.
    StepAfter(Spot, StepOp, Expr),
    /// `++` or `--` before its left side.
    StepBefore(Spot, StepOp, Expr),
}

/// A declarator of a local, which begins at its own first word.
#[derive(Debug, Drop)]
pub struct Local {
    pub spot: Spot,
    pub type_name: TypeName,
    pub name: Name,
    pub initial: Option<Expr>,
}

/// The first part of the head of a `for`.
#[derive(Debug, Drop)]
pub enum ForStart {
    Nothing,
    Simple(Simple),
    Locals(Vec<Local>),
}

/// A statement, or a declarator of a local in a block.
#[derive(Debug, Drop)]
pub enum Stmt {
    Local(Local),
    Block(Spot, Vec<Stmt>),
    Empty(Spot),
    Simple(Spot, Simple),
    If(Spot, Expr, Box<Stmt>, Option<Box<Stmt>>),
    While(Spot, Expr, Box<Stmt>),
    Do(Spot, Box<Stmt>, Expr),
    For(Spot, ForStart, Option<Expr>, Option<Simple>, Box<Stmt>),
    Break(Spot),
    Continue(Spot),
    Return(Spot, Option<Expr>),
}

/// What a global begins with.
#[derive(Debug, Drop)]
pub enum Constant {
    Number(Spot, u32, bool),
    /// `-` and a number.
    Negative(Spot, u32, bool),
    Character(Spot, u8),
    Null(Spot),
    Eof(Spot),
}

/// A declarator of a field, which begins at its own first word.
#[derive(Debug, Drop)]
pub struct Field {
    pub spot: Spot,
    pub type_name: TypeName,
    pub name: Name,
    /// Of an array, the number between the brackets.
    pub length: Option<u32>,
}

/// A parameter, which begins at its type.
#[derive(Debug, Drop)]
pub struct Param {
    pub spot: Spot,
    pub type_name: TypeName,
    pub name: Option<Name>,
}

/// What stands outside of functions.
#[derive(Debug, Drop)]
pub enum Item {
    Struct(Spot, Name, Vec<Field>),
    /// A declarator of a global, which begins at its own first word: its type, its name, the
    /// number between the brackets of an array, and what it begins with.
    Global(Spot, TypeName, Name, Option<u32>, Option<Constant>),
    /// Whether the function `deletes`, its result (none for `void`), its name, its parameters, and
    /// its body, which a prototype has not.
    Function(Spot, bool, Option<TypeName>, Name, Vec<Param>, Option<Vec<Stmt>>),
}

/// The items of a text, in their order, and the line of the text's last word: 1 where it has none.
/// A last brace or semicolon is no part of any node, so the line can't be read off the items.
#[derive(Debug, Drop)]
pub struct Tree {
    pub items: Vec<Item>,
    pub last: u32,
}
