// Why a tree has no program.

/// Why a tree has no program, with the line where it is.
#[derive(Clone, Copy, Debug, PartialEq, Eq)]
pub enum TypeFault {
    /// A name, a struct, a field or a definition of a function is not there.
    Unknown(u32),
    /// A name is declared twice in one scope.
    Twice(u32),
    /// A rule of types fails.
    Mistyped(u32),
    /// A call has another number of arguments than its function has parameters.
    Arity(u32),
    /// The last star of a local, a parameter or a result is annotated.
    AnnotationPlace(u32),
    /// A function without `deletes` calls one with it.
    NotDeletes(u32),
    /// A call of a function with `deletes` stands where none may.
    DeletesPlace(u32),
    /// There is no definition of `main`, which is told at line 1, or it has parameters or a result
    /// other than `int`.
    Main(u32),
    /// An array has no element, or a struct or the globals have too many cells.
    TooBig(u32),
    /// Out of memory.
    Memory,
}
