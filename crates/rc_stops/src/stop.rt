// What one stop does, and where it leads.

/// A stop of a path. Things that are got and set are numbered below 128.
#[derive(Clone, Copy)]
pub struct Stop {
    /// What it gets.
    pub gets: Option<u32>,
    /// What it sets, where it gets nothing.
    pub sets: Option<u32>,
    /// Whether it leads to the next stop.
    pub falls: bool,
    /// Where it leads as well.
    pub leads: Option<usize>,
}
