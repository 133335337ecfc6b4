// A program whose parts fit together.

ghost use Rattle.std.specs.Prelude.{◌≡◌};
ghost use Rattle.rc_core.specs.WellTyped.{IsWellTyped};
ghost use Rattle.rc_core.specs.Shapes.{program_of};

use crate::parts::Parts;
use std::marker::Model;

/// A program that meets the test of a program by itself: its numbers name what is there, its
/// nodes have their types, and it deletes regions only where it may.
#[derive(Drop)]
pub struct Program {
    parts: Parts,
}

impl Model for Program {
    ghost use Rattle.rc_core.specs.declared.parts.Parts.{Parts};
    ghost use Rattle.rc_core.specs.contracts.ty.Ty as ty;
    ghost use Rattle.rc_core.specs.contracts.expr.Expr as expr;
    ghost use Rattle.rc_core.specs.contracts.stmt.Stmt as stmt;
    ghost use Rattle.std.specs.Coded.{codes};

    ghost Value = { Parts };

    ghost coded = { Prim.hlevel (codes, ty.the_row.coded, expr.the_row.coded, stmt.the_row.coded) };

    ghost use Rattle.rc_core.specs.WellTyped.{IsWellTyped};
    ghost use Rattle.rc_core.specs.Shapes.{program_of};

    ghost view = { λ p. p.parts };

    ghost invariant = { λ p. IsWellTyped (program_of p.parts) };
}

impl Program {
    /// The program with these parts, which must fit together.
    pub fn new(parts: Parts) -> Program
        requires { IsWellTyped (program_of parts) }
        ensures { result ≡ parts }
    {
        Program { parts }
    }

    pub fn parts(&self) -> &Parts
        ensures parts { result.now ≡ self.now }
        ensures well_typed { IsWellTyped (program_of self.now) }
    {
        &self.parts
    }
}
