// Runs of bytes of one kind.
ghost use Rattle.std.specs.Prelude.{◌≡◌, ◌≤◌, length, take};
ghost use Rattle.std.specs.List.{prefix_len};
ghost use Rattle.rc_lexer.specs.Shapes.{passes};

/// Bytes that runs are made of.
#[derive(Clone, Copy)]
pub enum ByteSet {
    /// Letters, digits and `_`.
    Name,
    /// All but the line feed.
    Line,
    /// Space and tab.
    Margin,
    Octal,
    Hexadecimal,
}

pub fn contains(set: ByteSet, b: u8) -> bool
    ensures { result ≡ passes set b }
{
    match set {
        ByteSet::Name => b.is_ascii_lowercase()
            || b.is_ascii_uppercase()
            || b == b'_'
            || b.is_ascii_digit(),
        ByteSet::Line => b != b'\n',
        ByteSet::Margin => b == b' ' || b == b'\t',
        ByteSet::Octal => b'0' <= b && b <= b'7',
        ByteSet::Hexadecimal => b.is_ascii_digit()
            || (b'a' <= b && b <= b'f')
            || (b'A' <= b && b <= b'F'),
    }
}

/// How many bytes at the front are in the set.
#[tactic(auto, using(crate::proofs::Runs::run_step, crate::proofs::Runs::run_stops, crate::proofs::Runs::run_whole))]
pub fn run_len(set: ByteSet, bytes: &[u8]) -> usize
    ensures value { result ≡ prefix_len (passes set) bytes.now }
    ensures low { result ≤ length bytes.now }
{
    for (i, b) in bytes.iter().enumerate() {
        if !contains(set, *b) {
            return i;
        }
    }
    bytes.len()
}

/// The first three bytes, or fewer where there are fewer.
pub fn first_three(bytes: &[u8]) -> &[u8]
    ensures { result.now ≡ take 3 bytes.now }
{
    if bytes.len() < 3 { bytes } else { &bytes[..3] }
}
