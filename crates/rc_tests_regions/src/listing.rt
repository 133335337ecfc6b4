// Region code as words. A step is its operation and its temporary; a way, a body and a block stand in
// brackets.

use rc_rlang::code::{Act, Code, RegionParts, Test};
use rc_rlang::steps::{Operation, Step};
use std::alloc::{AllocError, Global};

/// The code of the functions, in their order.
pub(crate) fn listing(alloc: Global, parts: &RegionParts) -> Result<String, AllocError> {
    let mut text = String::new(alloc);
    for routine in &parts.functions {
        add_code(&mut text, &routine.body)?;
    }
    Ok(text)
}

fn add_word(text: &mut String, word: &str) -> Result<(), AllocError> {
    if !text.is_empty() {
        text.push_str(" ")?;
    }
    text.push_str(word)
}

fn add_number(text: &mut String, number: u32) -> Result<(), AllocError> {
    text.push_str(match number {
        0 => "0",
        1 => "1",
        2 => "2",
        3 => "3",
        4 => "4",
        _ => "more",
    })
}

fn name(operation: &Operation) -> &'static str {
    match operation {
        Operation::Constant { .. } => "constant",
        Operation::Null => "null",
        Operation::Static { .. } => "static",
        Operation::Copy { local } => match *local {
            0 => "first",
            1 => "second",
            _ => "local",
        },
        Operation::Load { .. } => "load",
        Operation::Step { .. } => "step",
        Operation::StepFrom { .. } => "step_from",
        Operation::Unary { .. } => "unary",
        Operation::Binary { .. } => "binary",
        Operation::Convert { .. } => "convert",
        Operation::NotZero { .. } => "not_zero",
        Operation::Truth { .. } => "truth",
        Operation::IsNull { .. } => "is_null",
        Operation::Same { .. } => "same",
        Operation::Call { .. } => "call",
        Operation::NewRegion => "new_region",
        Operation::NewSubregion => "new_subregion",
        Operation::RegionOf { .. } => "region_of",
        Operation::Allocate { .. } => "allocate",
        Operation::AllocateArray { .. } => "allocate_array",
        Operation::Putchar => "putchar",
        Operation::Getchar => "getchar",
    }
}

fn add_steps(text: &mut String, steps: &[Step]) -> Result<(), AllocError> {
    for step in steps {
        match step {
            Step::Set {
                temporary,
                operation,
                ..
            } => {
                add_word(text, name(operation))?;
                add_number(text, *temporary)?;
            }
            Step::Fork {
                temporary,
                yes,
                no,
                ..
            } => {
                add_word(text, "fork")?;
                add_number(text, *temporary)?;
                add_word(text, "(")?;
                add_steps(text, yes)?;
                add_word(text, ") (")?;
                add_steps(text, no)?;
                add_word(text, ")")?;
            }
        }
    }
    Ok(())
}

fn act_name(act: &Act) -> &'static str {
    match act {
        Act::Drop => "drop",
        Act::Perform { .. } => "perform",
        Act::Assign { local, .. } => match *local {
            0 => "to_first",
            1 => "to_second",
            _ => "to_local",
        },
        Act::Store { .. } => "store",
        Act::Update { .. } => "update",
        Act::Move { .. } => "move",
        Act::Delete { .. } => "delete",
        Act::Leave { .. } => "leave",
    }
}

fn test_name(test: &Test) -> &'static str {
    if test.wanted { "if" } else { "unless" }
}

#[cycle(codes)]
fn add_bracketed(text: &mut String, code: &Code) -> Result<(), AllocError> {
    add_word(text, "(")?;
    add_code(text, code)?;
    add_word(text, ")")
}

#[cycle(codes)]
fn add_code(text: &mut String, code: &Code) -> Result<(), AllocError> {
    match code {
        Code::Simple { steps, act } => {
            add_steps(text, steps)?;
            add_word(text, act_name(act))
        }
        Code::Clear { .. } => add_word(text, "clear"),
        Code::Block { body } => {
            add_word(text, "{")?;
            for code in body {
                add_code(text, code)?;
            }
            add_word(text, "}")
        }
        Code::Branch {
            steps,
            test,
            yes,
            no,
        } => {
            add_steps(text, steps)?;
            add_word(text, test_name(test))?;
            add_bracketed(text, yes)?;
            add_bracketed(text, no)
        }
        Code::Loop {
            steps,
            test,
            third,
            body,
            ..
        } => {
            add_word(text, "loop")?;
            add_steps(text, steps)?;
            if let Some(test) = test {
                add_word(text, test_name(test))?;
            }
            add_bracketed(text, third)?;
            add_bracketed(text, body)
        }
        Code::Repeat {
            body,
            steps,
            test,
            ..
        } => {
            add_word(text, "repeat")?;
            add_bracketed(text, body)?;
            add_steps(text, steps)?;
            add_word(text, test_name(test))
        }
        Code::Break { .. } => add_word(text, "break"),
        Code::Continue { .. } => add_word(text, "continue"),
    }
}
