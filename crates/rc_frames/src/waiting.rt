// What waits in a function.

ghost use Rattle.std.specs.Prelude.{◌≡◌, ◌∷◌, [], OnOk, IfErr, MatchOption, reverse};
ghost use Rattle.rc_base.specs.declared.ends.RunFault.TheVariants.{Memory};
ghost use Rattle.rc_values.specs.declared.stop.Stop.TheVariants.{Cut};

use crate::frames::Frame;
use rc_base::RunFault;
use rc_values::Stop;
use std::alloc::Global;
use std::marker::Model;

/// The frames of a call, which contracts see as a list with the innermost first.
#[derive(Drop)]
pub struct Waiting<'p> {
    frames: Vec<Frame<'p>>,
}

impl<'p> Model for Waiting<'p> {
    ghost use Rattle.rc_core.specs.contracts.ty.Ty as ty;
    ghost use Rattle.rc_core.specs.contracts.expr.Expr as expr;
    ghost use Rattle.rc_core.specs.contracts.expr.Place as place;
    ghost use Rattle.rc_core.specs.contracts.expr.PathStep as inward;
    ghost use Rattle.rc_core.specs.contracts.stmt.Stmt as stmt;
    ghost use Rattle.std.specs.Coded.{codes};
    ghost use Rattle.std.specs.Prelude.{reverse};
    ghost use Rattle.rc_frames.specs.Codes.{CodeFrames};

    ghost Value = { CodeFrames };

    ghost coded = { Prim.hlevel (codes, ty.the_row.coded, expr.the_row.coded, place.the_row.coded, inward.the_row.coded, stmt.the_row.coded) };

    ghost view = { λ w. reverse w.frames.items };
}

impl<'p> Waiting<'p> {
    pub fn new(alloc: Global) -> Waiting<'p>
        ensures { result ≡ [] }
    {
        Waiting {
            frames: Vec::new(alloc),
        }
    }

    #[tactic(auto, using(rc_values::proofs::Lists::reversed_more))]
    pub fn push(&mut self, frame: Frame<'p>) -> Result<(), Stop>
        ensures pushed { OnOk result (self.new ≡ frame.entry ∷ self.old) }
        ensures memory { IfErr result (λ stop. stop ≡ Cut Memory) }
    {
        match self.frames.push(frame) {
            Ok(()) => Ok(()),
            Err(_) => Err(Stop::Cut(RunFault::Memory)),
        }
    }

    /// The innermost frame, or none.
    #[tactic(auto, using(rc_values::proofs::Lists::reversed_more))]
    pub fn pop(&mut self) -> Option<Frame<'p>>
        ensures { MatchOption result (self.old ≡ []) (λ frame. self.old ≡ frame ∷ self.new) }
    {
        self.frames.pop()
    }

    /// The frames, the outermost first.
    pub(crate) fn as_slice(&self) -> &[Frame<'p>]
        ensures { result.now ≡ reverse self.now }
    {
        self.frames.as_slice()
    }
}
