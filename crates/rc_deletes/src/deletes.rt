// What is refused of annotations and of calls that delete regions.

/// The first place at which a typed text deletes regions where it may not, or annotates the last
/// star of a local, parameter or result. Each has the line of its first word.
#[derive(Clone, Copy, Debug, PartialEq, Eq)]
pub enum DeletesFault {
    /// The last star of a local, parameter or result is annotated.
    AnnotationPlace(u32),
    /// A function without `deletes` calls a function that `deletes`.
    NotDeletes(u32),
    /// A call of a function that `deletes` stands inside something.
    DeletesPlace(u32),
}
