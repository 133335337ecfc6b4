// The functions that every text has.
ghost use Rattle.std.specs.Prelude.{◌≡◌, map, option_map};
ghost use Rattle.rc_core.specs.Shapes.{ty_of};
ghost use Rattle.rc_deletes.specs.Builtins.{row, every_builtin, parameter_of};

use rc_core::ty::Ty;

/// A function that counts as defined before the text.
#[derive(Clone, Copy, Debug, PartialEq, Eq)]
pub enum Builtin {
    NewRegion,
    NewSubregion,
    DeleteRegion,
    RegionOf,
    Putchar,
    Getchar,
}

/// What a parameter of a built-in function takes.
#[derive(Clone, Copy, Debug, PartialEq, Eq)]
pub enum Parameter {
    Int,
    Region,
    /// A pointer of any type.
    AnyPointer,
}

const BUILTINS: [Builtin; 6] = [
    Builtin::NewRegion,
    Builtin::NewSubregion,
    Builtin::DeleteRegion,
    Builtin::RegionOf,
    Builtin::Putchar,
    Builtin::Getchar,
];

static INT: [Parameter; 1] = [Parameter::Int];

static REGION: [Parameter; 1] = [Parameter::Region];

static ANY_POINTER: [Parameter; 1] = [Parameter::AnyPointer];

impl Builtin {
    /// Every built-in function.
    pub fn all() -> &'static [Builtin]
        ensures { result.now ≡ every_builtin }
    {
        &BUILTINS
    }

    /// The bytes of its name.
    pub fn name(self) -> &'static [u8]
        ensures { result.now ≡ (row self).name }
    {
        match self {
            Builtin::NewRegion => b"newregion",
            Builtin::NewSubregion => b"newsubregion",
            Builtin::DeleteRegion => b"deleteregion",
            Builtin::RegionOf => b"regionof",
            Builtin::Putchar => b"putchar",
            Builtin::Getchar => b"getchar",
        }
    }

    /// Its parameters, in their order.
    pub fn parameters(self) -> &'static [Parameter]
        ensures { map parameter_of result.now ≡ (row self).takes }
    {
        match self {
            Builtin::NewRegion => &[],
            Builtin::NewSubregion => &REGION,
            Builtin::DeleteRegion => &REGION,
            Builtin::RegionOf => &ANY_POINTER,
            Builtin::Putchar => &INT,
            Builtin::Getchar => &[],
        }
    }

    /// The type of its value, none where it gives no value.
    pub fn gives(self) -> Option<Ty>
        ensures { option_map ty_of result ≡ (row self).gives }
    {
        match self {
            Builtin::NewRegion => Some(Ty::Region),
            Builtin::NewSubregion => Some(Ty::Region),
            Builtin::DeleteRegion => None,
            Builtin::RegionOf => Some(Ty::Region),
            Builtin::Putchar => Some(Ty::Int),
            Builtin::Getchar => Some(Ty::Int),
        }
    }

    /// Whether a call of it deletes a region.
    pub fn deletes(self) -> bool
        ensures { result ≡ (row self).deletes }
    {
        matches!(self, Builtin::DeleteRegion)
    }
}
