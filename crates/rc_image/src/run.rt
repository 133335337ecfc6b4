/// Equal lines of instructions side by side: how many they are, and the line.
#[derive(Clone, Copy, Debug, PartialEq, Eq)]
pub struct Run {
    pub count: usize,
    pub line: u32,
}
