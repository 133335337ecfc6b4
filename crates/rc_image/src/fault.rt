/// Why bytes are no image: the first fault from left to right.
#[derive(Clone, Copy, Debug, PartialEq, Eq)]
pub enum ImageFault {
    /// The first bytes, up to four, are not those of an image.
    Magic,
    /// The fifth byte is no known version.
    Version,
    /// The bytes end inside the image.
    Short,
    /// Bytes follow the image.
    Extra,
    /// The field that begins at this offset breaks a rule of the format.
    Field(u64),
    /// There was no memory.
    Memory,
}
