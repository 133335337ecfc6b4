// The stack code of whole functions.
ghost use Rattle.std.specs.Prelude.{◌≡◌, length, IfOk};
ghost use Rattle.rc_core.specs.Laid.{AreLaidOut};
ghost use Rattle.rc_core.specs.Live.{at_end};
ghost use Rattle.rc_emission.specs.StatementCode.{body_lines};
ghost use Rattle.rc_rlang.specs.RegionFits.{CodeFits};
ghost use Rattle.rc_lines.specs.Bare.{bare_code, lines_of};
ghost use Rattle.rc_lines.specs.Over.{deleting_in, slot_in, structs_in};
ghost use Rattle.rc_program_code.specs.Placed.{code_in, routine_of, CodeHeld};

use crate::code::code;
use crate::fronts::put_piece;
use crate::leads::Leads;
use rc_base::NoMemory;
use rc_lines::{Body, Line, end};

/// The instructions of a function, from the first on: those of its body, and what stands behind it. The
/// body's points end before this one.
///
/// # Errors
///
/// Out of memory, which is also said where a function has more instructions than a `u32` counts.
pub fn body_code<'a>(body: &Body<'a, '_>, behind: u32) -> Result<Vec<Line<'a>>, NoMemory>
    requires laid { AreLaidOut (structs_in body.now) body.now.layouts.now }
    requires fits { CodeFits (code_in body.now body.now.routine.now.body) }
    requires held { CodeHeld body.now (code_in body.now body.now.routine.now.body) at_end behind }
    ensures { IfOk result (λ lines. lines_of lines.items ≡ bare_code (length (body_lines (slot_in body.now) (deleting_in body.now) (routine_of body.now))) (body_lines (slot_in body.now) (deleting_in body.now) (routine_of body.now))) }
{
    let mut last = Vec::new(body.alloc);
    end(&mut last, body)?;
    let mut out = Vec::new(body.alloc);
    put_piece(&mut out, last)?;
    let leads = Leads {
        out: out.len(),
        on: out.len(),
    };
    code(&mut out, body, &body.routine.body, leads, behind)?;
    out.reverse();
    Ok(out)
}
