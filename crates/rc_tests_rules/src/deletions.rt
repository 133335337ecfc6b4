// The trees of small texts beside their programs.

use rc_core::expr::Expr as Value;
use rc_core::operators::Operator;
use rc_core::parts::{Function, Parts};
use rc_core::stmt::Stmt as Step;
use rc_core::ty::{Note, Signedness, Ty};
use rc_deletes::{DeletesFault, check_deletes};
use rc_judgements::{
    first_violation_is_least, fits_together, has_one_program, has_program_or_violation,
    keeps_limits,
};
use rc_lexer::lex::lex;
use rc_parser::parse;
use rc_syntax::tree::Tree;
use rc_typed_values::{Stop, add, boxed};
use std::alloc::Global;
use std::test::Fail;

/// The tree of a text, if it has one.
fn tree_of(alloc: Global, text: &[u8]) -> Option<Tree> {
    let Ok(tokens) = lex(alloc, text) else {
        return None;
    };
    if tokens.len() > 1_048_576 {
        return None;
    }
    match parse(alloc, &tokens) {
        Ok(tree) => Some(tree),
        Err(_) => None,
    }
}

/// What is said of the tree of a text beside a program, where the text has a tree.
fn answer(alloc: Global, text: &[u8], parts: &Parts) -> Option<Result<(), DeletesFault>> {
    match tree_of(alloc, text) {
        Some(tree) => Some(check_deletes(&tree, parts)),
        None => None,
    }
}

/// Whether the text has a tree. The laws of trees hold of it.
fn has_lawful_tree(alloc: Global, text: &[u8]) -> bool {
    let Some(tree) = tree_of(alloc, text) else {
        return false;
    };
    has_one_program(&tree);
    has_program_or_violation(&tree);
    fits_together(&tree);
    keeps_limits(&tree);
    first_violation_is_least(&tree);
    true
}

fn constant(value: i64) -> Value {
    Value::Constant {
        line: 1,
        signedness: Signedness::Signed,
        value,
    }
}

/// A function without parameters, with this body and the result `int`.
fn function(deletes: bool, locals: Vec<Ty>, body: Vec<Step>) -> Function {
    Function {
        parameters: 0,
        locals,
        result: Some(Ty::Int),
        deletes,
        line: 1,
        body: Step::Block { body },
    }
}

fn parts(alloc: Global, functions: Vec<Function>, main: u32) -> Parts {
    Parts {
        structs: Vec::new(alloc),
        globals: Vec::new(alloc),
        strings: Vec::new(alloc),
        functions,
        main,
    }
}

const DELETING: &[u8] =
    b"deletes int main(void) {\nregion r = newregion();\ndeleteregion(r);\nreturn 0; }";

const NOT_DELETING: &[u8] =
    b"int main(void) {\nregion r = newregion();\ndeleteregion(r);\nreturn 0; }";

/// The program of these texts.
fn deleting(alloc: Global, deletes: bool) -> Result<Parts, Stop> {
    let mut locals = Vec::new(alloc);
    add(&mut locals, Ty::Region)?;
    let mut steps = Vec::new(alloc);
    add(
        &mut steps,
        Step::Declare {
            line: 2,
            local: 0,
            value: Some(Value::NewRegion { line: 2 }),
        },
    )?;
    add(
        &mut steps,
        Step::Delete {
            line: 3,
            region: Value::Local { line: 3, local: 0 },
        },
    )?;
    add(
        &mut steps,
        Step::Return {
            line: 4,
            value: Some(constant(0)),
        },
    )?;
    let mut functions = Vec::new(alloc);
    add(&mut functions, function(deletes, locals, steps))?;
    Ok(parts(alloc, functions, 0))
}

const INSIDE_A_SUM: &[u8] =
    b"deletes int f(void) { return 0; }\ndeletes int main(void) { return f() + 1; }";

/// The program of this text.
fn inside_a_sum(alloc: Global) -> Result<Parts, Stop> {
    let mut functions = Vec::new(alloc);
    let mut steps = Vec::new(alloc);
    add(
        &mut steps,
        Step::Return {
            line: 1,
            value: Some(constant(0)),
        },
    )?;
    add(&mut functions, function(true, Vec::new(alloc), steps))?;
    let left = boxed(
        alloc,
        Value::Call {
            line: 2,
            function: 0,
            arguments: Vec::new(alloc),
        },
    )?;
    let right = boxed(alloc, constant(1))?;
    let mut steps = Vec::new(alloc);
    add(
        &mut steps,
        Step::Return {
            line: 2,
            value: Some(Value::Binary {
                line: 2,
                operator: Operator::Add,
                signedness: Signedness::Signed,
                left,
                right,
            }),
        },
    )?;
    add(&mut functions, function(true, Vec::new(alloc), steps))?;
    Ok(parts(alloc, functions, 1))
}

const ANNOTATED: &[u8] = b"int main(void) {\nint *sameregion p; return 0; }";

const NOT_ANNOTATED: &[u8] = b"int main(void) {\nint *p; return 0; }";

/// The program of these texts.
fn annotated(alloc: Global, note: Note) -> Result<Parts, Stop> {
    let mut locals = Vec::new(alloc);
    let target = boxed(alloc, Ty::Int)?;
    add(&mut locals, Ty::Pointer(note, target))?;
    let mut steps = Vec::new(alloc);
    add(
        &mut steps,
        Step::Declare {
            line: 2,
            local: 0,
            value: None,
        },
    )?;
    add(
        &mut steps,
        Step::Return {
            line: 2,
            value: Some(constant(0)),
        },
    )?;
    let mut functions = Vec::new(alloc);
    add(&mut functions, function(false, locals, steps))?;
    Ok(parts(alloc, functions, 0))
}

/// What is said of a text beside the program that deletes.
fn of_deleting(
    alloc: Global,
    text: &[u8],
    deletes: bool,
) -> Result<Option<Result<(), DeletesFault>>, Stop> {
    let parts = deleting(alloc, deletes)?;
    Ok(answer(alloc, text, &parts))
}

fn of_a_sum(alloc: Global) -> Result<Option<Result<(), DeletesFault>>, Stop> {
    let parts = inside_a_sum(alloc)?;
    Ok(answer(alloc, INSIDE_A_SUM, &parts))
}

fn of_annotated(
    alloc: Global,
    text: &[u8],
    note: Note,
) -> Result<Option<Result<(), DeletesFault>>, Stop> {
    let parts = annotated(alloc, note)?;
    Ok(answer(alloc, text, &parts))
}

#[test]
fn a_function_that_deletes_may_delete(rt: HostRuntime) -> Result<(), Fail> {
    assert_eq!(rt; of_deleting(rt.alloc(), DELETING, true)?, Some(Ok(())));
    assert!(rt; has_lawful_tree(rt.alloc(), DELETING));
    Ok(())
}

#[test]
fn another_function_may_not(rt: HostRuntime) -> Result<(), Fail> {
    let answer = of_deleting(rt.alloc(), NOT_DELETING, false)?;
    assert_eq!(rt; answer, Some(Err(DeletesFault::NotDeletes(3))));
    Ok(())
}

#[test]
fn a_deleting_call_is_no_operand(rt: HostRuntime) -> Result<(), Fail> {
    let answer = of_a_sum(rt.alloc())?;
    assert_eq!(rt; answer, Some(Err(DeletesFault::DeletesPlace(2))));
    Ok(())
}

#[test]
fn the_last_star_of_a_local_has_no_annotation(rt: HostRuntime) -> Result<(), Fail> {
    let answer = of_annotated(rt.alloc(), ANNOTATED, Note::SameRegion)?;
    assert_eq!(rt; answer, Some(Err(DeletesFault::AnnotationPlace(2))));
    let plain = of_annotated(rt.alloc(), NOT_ANNOTATED, Note::Plain)?;
    assert_eq!(rt; plain, Some(Ok(())));
    Ok(())
}
