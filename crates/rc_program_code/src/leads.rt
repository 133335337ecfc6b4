// Where breaks and continues lead.

/// Where a break and a continue lead in a piece of code: how many instructions there are from there up
/// to the end of the function.
#[derive(Clone, Copy)]
pub(crate) struct Leads {
    pub(crate) out: usize,
    pub(crate) on: usize,
}
