// The stack code of statements, from its end to its beginning.
ghost use Rattle.std.specs.Prelude.{◌≡◌, ◌+◌, ◌++◌, length, ℕ, OnOk, IfOk};
ghost use Rattle.rc_core.specs.Live.{Ways};
ghost use Rattle.rc_emission.specs.StatementCode.{Place, code_lines, codes_lines, code_size, codes_size};
ghost use Rattle.rc_rlang.specs.RegionPoints.{code_points, codes_points};
ghost use Rattle.rc_lines.specs.Bare.{bare_code};
ghost use Rattle.rc_lines.specs.Over.{deleting_in, types_in, slot_in};
ghost use Rattle.rc_program_code.specs.Onward.{onward};
ghost use Rattle.rc_program_code.specs.Placed.{code_in, codes_in, CodeHeld, CodesHeld, CodeReady, CodesReady, IsPlaced};

use crate::fronts::{before, distance, put, set_back};
use crate::leads::Leads;
use crate::pieces::{clear, exit, exit_if, head, simple};
use rc_base::NoMemory;
use rc_lines::{Body, Instruction, Line};
use rc_rlang::branch_points;
use rc_rlang::code::Code;

/// Puts the code of a statement in front of the code that follows it, where the points of what follows
/// begin with this one, and breaks and continues lead to these places. It answers the point at which
/// the statement begins.
///
/// The code that is there has the last instruction first. Nothing is walked over twice.
///
/// # Errors
///
/// Out of memory, which is also said where a function has more instructions than a `u32` counts.
#[cycle(code)]
pub(crate) fn code<'a>(
    out: &mut Vec<Line<'a>>,
    body: &Body<'a, '_>,
    code: &'a Code,
    leads: Leads,
    end: u32,
) -> Result<u32, NoMemory>
    requires { CodeReady body.now (code_in body.now code.now) end }
    ensures lines { (total : ℕ) (k : Ways) (p : Place) → CodeHeld body.now (code_in body.now code.now) k end → IsPlaced (code_size (slot_in body.now) (deleting_in body.now) (types_in body.now) (code_in body.now code.now) k) p total leads (length (onward out.old.items)) →
        OnOk result (onward out.new.items ≡ bare_code total (code_lines (slot_in body.now) (deleting_in body.now) (types_in body.now) (code_in body.now code.now) k p) ++ onward out.old.items) }
    ensures point { IfOk result (λ here. here + code_points (code_in body.now code.now) ≡ end) }
{
    match code {
        Code::Simple { steps, act } => simple(out, body, steps.as_slice(), act, end),
        Code::Clear { line, local, ty } => {
            clear(out, body, *line, *local, ty)?;
            before(end, 1)
        }
        Code::Block { body: all } => codes(out, body, all.as_slice(), leads, end),
        Code::Branch {
            steps,
            test,
            yes,
            no,
        } => {
            let behind = out.len();
            let at_no = self::code(out, body, no, leads, end)?;
            let no_begins = out.len();
            let over = distance(out.as_slice(), behind)?;
            put(out, test.line, Instruction::Jump(over))?;
            let at_yes = self::code(out, body, yes, leads, at_no)?;
            exit(out, body, test, no_begins)?;
            head(out, body, steps.as_slice(), before(at_yes, 1)?)
        }
        Code::Loop {
            line,
            steps,
            test,
            third,
            body: inside,
        } => {
            let behind = out.len();
            put(out, *line, Instruction::Pop)?;
            let at_third = self::code(out, body, third, leads, end)?;
            let round = Leads {
                out: behind,
                on: out.len(),
            };
            let at_inside = self::code(out, body, inside, round, at_third)?;
            exit_if(out, body, test, behind)?;
            let at_test = before(at_inside, branch_points(test))?;
            let at_steps = head(out, body, steps.as_slice(), at_test)?;
            set_back(out, *line, behind)?;
            before(at_steps, 1)
        }
        Code::Repeat {
            line,
            body: inside,
            steps,
            test,
        } => {
            let behind = out.len();
            put(out, *line, Instruction::Pop)?;
            exit(out, body, test, behind)?;
            let at_steps = head(out, body, steps.as_slice(), before(end, 1)?)?;
            let round = Leads {
                out: behind,
                on: out.len(),
            };
            let at_inside = self::code(out, body, inside, round, at_steps)?;
            set_back(out, *line, behind)?;
            before(at_inside, 1)
        }
        Code::Break { line } => {
            let over = distance(out.as_slice(), leads.out)?;
            put(out, *line, Instruction::Jump(over))?;
            before(end, 1)
        }
        Code::Continue { line } => {
            let over = distance(out.as_slice(), leads.on)?;
            put(out, *line, Instruction::Jump(over))?;
            before(end, 1)
        }
    }
}

/// Puts the code of statements in front, the last one first.
#[cycle(code)]
fn codes<'a>(
    out: &mut Vec<Line<'a>>,
    body: &Body<'a, '_>,
    all: &'a [Code],
    leads: Leads,
    end: u32,
) -> Result<u32, NoMemory>
    requires { CodesReady body.now (codes_in body.now all.now) end }
    ensures lines { (total : ℕ) (k : Ways) (p : Place) → CodesHeld body.now (codes_in body.now all.now) k end → IsPlaced (codes_size (slot_in body.now) (deleting_in body.now) (types_in body.now) (codes_in body.now all.now) k) p total leads (length (onward out.old.items)) →
        OnOk result (onward out.new.items ≡ bare_code total (codes_lines (slot_in body.now) (deleting_in body.now) (types_in body.now) (codes_in body.now all.now) k p) ++ onward out.old.items) }
    ensures point { IfOk result (λ here. here + codes_points (codes_in body.now all.now) ≡ end) }
{
    let mut here = end;
    for i in (0..all.len()).rev() {
        here = code(out, body, &all[i], leads, here)?;
    }
    Ok(here)
}
