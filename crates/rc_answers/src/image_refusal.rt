// Why an image is refused.
use thiserror::Error;

/// Why an image is refused: an offset into its bytes, or a function with its instruction, where there
/// is one.
#[derive(Clone, Copy, Debug, PartialEq, Eq, Error)]
pub enum ImageRefusal {
    /// The first bytes are not those of an image.
    #[error("17 magic")]
    Magic,
    /// The version is not known.
    #[error("18 version")]
    Version,
    /// The bytes end inside the image.
    #[error("19 short")]
    Short,
    /// Bytes follow the image.
    #[error("20 extra")]
    Extra,
    /// A field breaks a rule of the format.
    #[error("21 field at {0}")]
    Field(u64),
    /// A jump leads out of its function or the wrong way, or a code is empty or runs off its end.
    #[error("22 target in {0} at {1}")]
    Target(u32, u32),
    /// An operand is missing, or one is left where none may be.
    #[error("23 height in {0} at {1}")]
    Height(u32, u32),
    /// An operand has a wrong kind.
    #[error("24 kind in {0} at {1}")]
    Kind(u32, u32),
    /// An operand names what is not there, or `main` has a wrong shape.
    #[error("25 number in {0} at {1}")]
    Number(u32, u32),
    /// The proofs that the image carries don't prove an instruction.
    #[error("29 facts in {0} at {1}")]
    Facts(u32, u32),
    /// A call or a deletion doesn't pin what is used behind it.
    #[error("30 pins in {0} at {1}")]
    Pins(u32, u32),
    /// A function has too many variables for proofs.
    #[error("31 wide in {0}")]
    Wide(u32),
}
