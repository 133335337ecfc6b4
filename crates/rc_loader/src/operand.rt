// The kinds of operands.
ghost use Rattle.std.specs.Prelude.{◌≡◌};
ghost use Rattle.rc_code.specs.Soundness.{numbers, operand_kind};
ghost use Rattle.rc_loader.specs.Codes.{kind_in};
ghost use Rattle.rc_loader.specs.Decisions.{same_kind};

use rc_code::Storage;
use rc_core::ty::{NumberType, Signedness};

/// The kind of an operand, as a number that no other kind has. So one comparison tells whether two kinds
/// are the same, those of pointers by the type that they point to.
#[derive(Clone, Copy)]
pub(crate) struct Operand {
    code: u64,
}

/// An `int`.
pub(crate) const INT: Operand = Operand { code: 0 };

/// An `unsigned`.
pub(crate) const UNSIGNED: Operand = Operand { code: 1 };

/// A region.
pub(crate) const REGION: Operand = Operand { code: 2 };

impl Operand {
    /// A number of that kind.
    pub(crate) fn number(kind: Signedness) -> Operand
        ensures { kind_in result ≡ numbers kind }
    {
        match kind {
            Signedness::Signed => INT,
            Signedness::Unsigned => UNSIGNED,
        }
    }

    /// What a local or a result holds, once it is an operand.
    pub(crate) fn held(storage: Storage) -> Operand
        ensures { kind_in result ≡ operand_kind storage }
    {
        match storage {
            Storage::Number(NumberType::Int | NumberType::Char) => INT,
            Storage::Number(NumberType::Unsigned) => UNSIGNED,
            Storage::Region => REGION,
            Storage::Pointer(type_number) => Operand {
                code: 3 + u64::from(type_number),
            },
        }
    }

    /// Whether both are of one kind, the types of pointers included.
    pub(crate) fn is(self, other: Operand) -> bool
        ensures { result ≡ same_kind (kind_in self) (kind_in other) }
    {
        self.code == other.code
    }
}
