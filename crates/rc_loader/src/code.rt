// The rules of code, from the first instruction to the last.
ghost use Rattle.std.specs.Prelude.{◌≡◌, suc, ◌<◌, ◌++◌, true, length, map, take, option_to_list, IfOk, OnOk, MatchOption};
ghost use Rattle.rc_code.specs.Image.{IsNumber};
ghost use Rattle.rc_code.specs.Running.{reading_of};
ghost use Rattle.rc_code.specs.Soundness.{instruction_at, FunctionIsSound};
ghost use Rattle.rc_loader.specs.Violations.{BreaksFirst};
ghost use Rattle.rc_loader.specs.Codes.{kind_in};
ghost use Rattle.rc_loader.specs.Decisions.{is_empty_enough, met, is_named, Stand, KeepsAll, BreaksHere};

use crate::demands::{Demands, demands_of};
use crate::fault::Rule;
use crate::names::{may_end, targets_of};
use crate::operand::Operand;
use rc_code::{Function, Instruction, Parts};
use std::alloc::{AllocError, Global};

/// A rule that is broken at an instruction.
#[derive(Clone, Copy)]
pub(crate) struct Broken {
    pub(crate) rule: Rule,
    pub(crate) instruction: u32,
}

/// Whether no operands are left below, and none stand before, where that has to be.
fn is_empty_enough(empties: bool, target: bool, below: usize, height: usize) -> bool
    ensures { result ≡ is_empty_enough empties target below height }
{
    (!empties || below == 0) && (!target || height == 0)
}

/// Asks whether demands are met where these operands stand before an instruction that doesn't run off the
/// code's end, or does, and that is a target, or isn't. Answers how many operands are left below those
/// that it takes.
fn meet(demands: &Demands<'_>, ends: bool, target: bool, stack: &[Operand]) -> Result<usize, Rule>
    ensures { result ≡ met demands.now ends target stack.now }
{
    if !(demands.leads && ends) {
        return Err(Rule::Target);
    }
    let Some(below) = demands.taken.below(stack.len()) else {
        return Err(Rule::Height);
    };
    if !is_empty_enough(demands.empties, target, below, stack.len()) {
        return Err(Rule::Height);
    }
    if !demands.taken.are(&stack[below..]) {
        return Err(Rule::Kind);
    }
    Ok(below)
}

/// Puts what an instruction gives, if anything, in place of the operands that it takes.
fn go_on(given: Option<Operand>, below: usize, stack: &mut Vec<Operand>) -> Result<(), AllocError>
    ensures { OnOk result (map kind_in stack.new.items ≡ map kind_in (take below stack.old.items) ++ map kind_in (option_to_list given)) }
{
    stack.truncate(below);
    if let Some(given) = given {
        stack.push(given)?;
    }
    Ok(())
}

/// The instruction of that number.
fn instruction_of(function: &Function, at: usize) -> &Instruction
    requires { at < length function.now.code }
    ensures { result.now ≡ instruction_at function.now at }
{
    &function.code.as_slice()[at]
}

/// Asks the rules at an instruction of the function, before which these operands stand, and puts what
/// it gives in place of what it takes. Answers the first rule that is broken, if any is.
fn step(
    parts: &Parts,
    function: &Function,
    at: usize,
    target: bool,
    stack: &mut Vec<Operand>,
) -> Result<Option<Rule>, AllocError>
    requires there { at < length function.now.code }
    requires target { target ≡ is_named function.now.code at }
    requires stand { Stand parts.now function.now at stack.old.items }
    ensures { IfOk result (λ broken. MatchOption broken (KeepsAll parts.now function.now at × Stand parts.now function.now (suc at) stack.new.items) (λ rule. BreaksHere parts.now function.now at rule)) }
{
    let instruction = instruction_of(function, at);
    let Some(demands) = demands_of(parts, function, at, instruction) else {
        return Ok(Some(Rule::Number));
    };
    let ends = may_end(function.code.as_slice().len(), at, instruction);
    match meet(&demands, ends, target, stack) {
        Err(rule) => Ok(Some(rule)),
        Ok(below) => {
            go_on(demands.given, below, stack)?;
            Ok(None)
        }
    }
}

/// The first rule that is broken in the code of a function, if any is.
pub(crate) fn check_code(
    alloc: Global,
    parts: &Parts,
    function: &Function,
) -> Result<Option<Broken>, AllocError>
    requires { IsNumber (length function.now.code) }
    ensures { IfOk result (λ found. MatchOption found (FunctionIsSound true (reading_of parts.now) function.now) (λ broken. BreaksFirst (reading_of parts.now) function.now broken.instruction broken.rule)) }
{
    let size = function.code.as_slice().len();
    if size == 0 {
        return Ok(Some(Broken {
            rule: Rule::Target,
            instruction: 0,
        }));
    }
    let targets = targets_of(alloc, function.code.as_slice())?;
    let mut stack = Vec::new(alloc);
    for at in 0..size {
        if let Some(rule) = step(parts, function, at, targets[at], &mut stack)? {
            return Ok(Some(Broken {
                rule,
                instruction: at as u32,
            }));
        }
    }
    Ok(None)
}
