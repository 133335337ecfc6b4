// Why a text is refused.

/// Why a text is refused, with the line where it is that of a place in the text. The numbers and
/// names are those of the line that is printed.
#[derive(Clone, Copy, Debug, PartialEq, Eq)]
pub enum Refusal {
    /// 1, `too-long`: the text has more than 1,048,576 bytes.
    TooLong,
    /// 2, `byte`: a byte begins no word.
    Byte(u32),
    /// 3, `token`: a number, a character or a string is malformed, or a comment is not closed.
    Token(u32),
    /// 4, `syntax`: the words are no program, with the line of the first that can't follow those
    /// before it, or of the last where each can.
    Syntax(u32),
    /// 5, `deep`: a word is nested too deeply.
    Deep(u32),
    /// 6, `unknown`: a name, a struct, a field or a definition of a function is not there.
    Unknown(u32),
    /// 7, `twice`: a name is declared twice in one scope.
    Twice(u32),
    /// 8, `type`: a rule of types fails.
    Mistyped(u32),
    /// 9, `arity`: a call has another number of arguments.
    Arity(u32),
    /// 10, `annotation-place`: the last star of a local, a parameter or a result is annotated.
    AnnotationPlace(u32),
    /// 11, `not-deletes`: a function without `deletes` calls one with it.
    NotDeletes(u32),
    /// 12, `deletes-place`: a call of a function with `deletes` stands where none may.
    DeletesPlace(u32),
    /// 13, `main`: there is no definition of `main`, or it has parameters or a result other than
    /// `int`.
    Main(u32),
    /// 14, `too-big`: an array has no element, or a struct or the globals have too many cells.
    TooBig(u32),
    /// 15, `variables`: a function has over 128 region variables.
    Variables(u32),
    /// 16, `points`: the program has over 65,536 points.
    Points,
}
