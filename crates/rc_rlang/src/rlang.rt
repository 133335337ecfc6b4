// A program in region code whose parts fit together.

ghost use Rattle.std.specs.Prelude.{◌≡◌};
ghost use Rattle.rc_core.specs.Laid.{AreLaidOut};
ghost use Rattle.rc_rlang.specs.IsRlang.{IsRlang};
ghost use Rattle.rc_rlang.specs.Shapes.{rlang_of};

use crate::code::RegionParts;
use rc_core::Layouts;
use std::marker::Model;

/// A program in region code: its numbers name what is there, its types agree, its temporaries stand
/// as on a stack, and it keeps within the bounds of region variables and points. Its structs are laid out
/// once, and whoever asks for their cells reads them here.
#[derive(Drop)]
pub struct Rlang {
    parts: RegionParts,
    layouts: Layouts,
}

impl Model for Rlang {
    ghost use Rattle.rc_rlang.specs.declared.code.RegionParts.{RegionParts};
    ghost use Rattle.rc_core.specs.contracts.ty.Ty as ty;
    ghost use Rattle.rc_rlang.specs.contracts.steps.Step as step;
    ghost use Rattle.rc_rlang.specs.contracts.code.Code as code;
    ghost use Rattle.std.specs.Coded.{codes};

    ghost Value = { RegionParts };

    ghost coded = { Prim.hlevel (codes, ty.the_row.coded, step.the_row.coded, code.the_row.coded) };

    ghost use Rattle.rc_core.specs.Laid.{AreLaidOut};
    ghost use Rattle.rc_rlang.specs.IsRlang.{IsRlang};
    ghost use Rattle.rc_rlang.specs.Shapes.{rlang_of};

    ghost view = { λ r. r.parts };

    ghost invariant = { λ r. IsRlang (rlang_of r.parts) × AreLaidOut (rlang_of r.parts).structs r.layouts };
}

impl Rlang {
    /// The program in region code with these parts, which must fit together, and the layouts of its structs.
    pub fn new(parts: RegionParts, layouts: Layouts) -> Rlang
        requires fits { IsRlang (rlang_of parts) }
        requires laid { AreLaidOut (rlang_of parts).structs layouts }
        ensures { result ≡ parts }
    {
        Rlang { parts, layouts }
    }

    /// What it consists of.
    pub fn parts(&self) -> &RegionParts
        ensures parts { result.now ≡ self.now }
        ensures fits { IsRlang (rlang_of self.now) }
    {
        &self.parts
    }

    /// The layouts of its structs.
    pub fn layouts(&self) -> &Layouts
        ensures { AreLaidOut (rlang_of self.now).structs result.now }
    {
        &self.layouts
    }
}
