// Looks where a typed text deletes regions and annotates.

ghost use Rattle.std.specs.Prelude.{◌≡◌, [], ◌∷◌, ◌++◌, List, ◌+◌, ◌<◌, ◌≤◌, Option, Some, None, map, option_map, slice_get, length, ◌-◌, IfErr, OnOk};
ghost use Rattle.rc_syntax.specs.Shape as written;
ghost use Rattle.rc_core.specs.Programs as p;
ghost use Rattle.rc_core.specs.Shapes as program;
ghost use Rattle.rc_deletes.specs.First.{first, clear};
ghost use Rattle.rc_deletes.specs.Places as rule;

use crate::deletes::DeletesFault;
use rc_core::expr::{Expr as Value, PathStep, Place};
use rc_core::parts::{Function, Parts};
use rc_core::stmt::Stmt as Step;
use rc_syntax::tree::{
    Expr, ForStart, Item, Local, Note, Param, Simple, Spot, Stmt, Tree, TypeName,
};

fn deletes_regions(functions: &[Function], function: u32) -> bool
    ensures { result ≡ rule.deletes_regions (map program.function_of functions.now) function }
{
    match functions.get(function as usize) {
        Some(f) => f.deletes,
        None => false,
    }
}

/// A deletion that is the whole of its place.
fn deletion(line: u32, deletes: bool) -> Result<(), DeletesFault>
    ensures { result ≡ clear (rule.in_place deletes line) }
{
    if deletes {
        return Ok(());
    }
    Err(DeletesFault::NotDeletes(line))
}

/// A call of a function that is the whole of its place.
fn call_in_place(
    functions: &[Function],
    deletes: bool,
    line: u32,
    function: u32,
) -> Result<(), DeletesFault>
    ensures { result ≡ clear (rule.where_deleting (rule.deletes_regions (map program.function_of functions.now) function) (rule.in_place deletes line)) }
{
    if deletes_regions(functions, function) {
        return deletion(line, deletes);
    }
    Ok(())
}

fn call_out_of_place(
    functions: &[Function],
    deletes: bool,
    line: u32,
    function: u32,
) -> Result<(), DeletesFault>
    ensures { result ≡ clear (rule.where_deleting (rule.deletes_regions (map program.function_of functions.now) function) (rule.out_of_place deletes line)) }
{
    if !deletes_regions(functions, function) {
        return Ok(());
    }
    if deletes {
        return Err(DeletesFault::DeletesPlace(line));
    }
    Err(DeletesFault::NotDeletes(line))
}

/// A value in which no call may delete regions.
#[cycle(values)]
#[tactic(auto, using(crate::proofs::Firsts::clear_both, crate::proofs::Firsts::clear_own, rc_core::proofs::ShapeRows::call_is))]
fn within(value: &Value, functions: &[Function], deletes: bool) -> Result<(), DeletesFault>
    ensures { result ≡ clear (rule.within (map program.function_of functions.now) deletes (program.expr_of value.now)) }
{
    match value {
        Value::Constant { .. } => Ok(()),
        Value::Null { .. } => Ok(()),
        Value::Str { .. } => Ok(()),
        Value::Local { .. } => Ok(()),
        Value::Address { .. } => Ok(()),
        Value::NewRegion { .. } => Ok(()),
        Value::Getchar { .. } => Ok(()),
        Value::Read { place, .. } => within_place(place, functions, deletes),
        Value::Unary { operand, .. } => within(operand, functions, deletes),
        Value::Convert { operand, .. } => within(operand, functions, deletes),
        Value::Not { operand, .. } => within(operand, functions, deletes),
        Value::IsNull { operand, .. } => within(operand, functions, deletes),
        Value::NewSubregion { parent, .. } => within(parent, functions, deletes),
        Value::RegionOf { pointer, .. } => within(pointer, functions, deletes),
        Value::Allocate { region, .. } => within(region, functions, deletes),
        Value::Putchar { byte, .. } => within(byte, functions, deletes),
        Value::Step {
            pointer,
            number,
            ..
        } => {
            within(pointer, functions, deletes)?;
            within(number, functions, deletes)
        }
        Value::StepFrom {
            number,
            pointer,
            ..
        } => {
            within(number, functions, deletes)?;
            within(pointer, functions, deletes)
        }
        Value::Binary { left, right, .. } => {
            within(left, functions, deletes)?;
            within(right, functions, deletes)
        }
        Value::And { left, right, .. } => {
            within(left, functions, deletes)?;
            within(right, functions, deletes)
        }
        Value::Or { left, right, .. } => {
            within(left, functions, deletes)?;
            within(right, functions, deletes)
        }
        Value::Same { left, right, .. } => {
            within(left, functions, deletes)?;
            within(right, functions, deletes)
        }
        Value::AllocateArray { region, number, .. } => {
            within(region, functions, deletes)?;
            within(number, functions, deletes)
        }
        Value::Choose { test, yes, no, .. } => {
            within(test, functions, deletes)?;
            within(yes, functions, deletes)?;
            within(no, functions, deletes)
        }
        Value::Call {
            line,
            function,
            arguments,
        } => {
            within_all(arguments, functions, deletes)?;
            call_out_of_place(functions, deletes, *line, *function)
        }
    }
}

#[cycle(values)]
#[tactic(auto, using(crate::proofs::Firsts::clear_both))]
fn within_all(
    arguments: &[Value],
    functions: &[Function],
    deletes: bool,
) -> Result<(), DeletesFault>
    ensures { result ≡ clear (rule.within_all (map program.function_of functions.now) deletes (program.arguments_of arguments.now)) }
{
    for argument in arguments {
        within(argument, functions, deletes)?;
    }
    Ok(())
}

#[cycle(values)]
#[tactic(auto, using(crate::proofs::Firsts::clear_both, rc_core::proofs::ShapeRows::global_is, rc_core::proofs::ShapeRows::pointed_is, rc_core::proofs::ShapeRows::indexed_is))]
fn within_place(place: &Place, functions: &[Function], deletes: bool) -> Result<(), DeletesFault>
    ensures { result ≡ clear (rule.within_place (map program.function_of functions.now) deletes (program.place_of place.now)) }
{
    match place {
        Place::Global { path, .. } => within_path(path, functions, deletes),
        Place::Pointed { pointer, path } => {
            within(pointer, functions, deletes)?;
            within_path(path, functions, deletes)
        }
        Place::Indexed {
            pointer,
            index,
            path,
        } => {
            within(pointer, functions, deletes)?;
            within(index, functions, deletes)?;
            within_path(path, functions, deletes)
        }
    }
}

#[cycle(values)]
#[tactic(auto, using(crate::proofs::Firsts::path_clear))]
fn within_path(path: &[PathStep], functions: &[Function], deletes: bool) -> Result<(), DeletesFault>
    ensures { result ≡ clear (rule.within_path (map program.function_of functions.now) deletes (program.path_of path.now)) }
{
    for step in path {
        within_step(step, functions, deletes)?;
    }
    Ok(())
}

#[cycle(values)]
fn within_step(step: &PathStep, functions: &[Function], deletes: bool) -> Result<(), DeletesFault>
    ensures { result ≡ clear (rule.within_path (map program.function_of functions.now) deletes (program.inward step.now p.here)) }
{
    match step {
        PathStep::Field { .. } => Ok(()),
        PathStep::Element { index, .. } => within(index, functions, deletes),
    }
}

/// A call as the whole of a place where it may stand.
#[tactic(auto, using(crate::proofs::Firsts::clear_own, rc_core::proofs::ShapeRows::call_is))]
fn whole_call(value: &Value, functions: &[Function], deletes: bool) -> Result<(), DeletesFault>
    ensures { result ≡ clear (rule.whole_call (map program.function_of functions.now) deletes (program.expr_of value.now)) }
{
    match value {
        Value::Call {
            line,
            function,
            arguments,
        } => {
            within_all(arguments, functions, deletes)?;
            call_in_place(functions, deletes, *line, *function)
        }
        Value::Convert { operand, .. } => whole_call(operand, functions, deletes),
        _ => within(value, functions, deletes),
    }
}

fn is_call(e: &Expr) -> bool
    ensures { result ≡ rule.is_call (written.expr_of e.now) }
{
    match e {
        Expr::Call(_, _) => true,
        _ => false,
    }
}

fn whole(e: &Expr, value: &Value, functions: &[Function], deletes: bool) -> Result<(), DeletesFault>
    ensures { result ≡ clear (rule.whole (map program.function_of functions.now) deletes (written.expr_of e.now) (program.expr_of value.now)) }
{
    if is_call(e) {
        return whole_call(value, functions, deletes);
    }
    within(value, functions, deletes)
}

fn whole_option(
    e: &Option<Expr>,
    value: &Option<Value>,
    functions: &[Function],
    deletes: bool,
) -> Result<(), DeletesFault>
    ensures { result ≡ clear (rule.whole_option (map program.function_of functions.now) deletes (written.mapped written.expr_of e.now) (option_map program.expr_of value.now)) }
{
    match (e, value) {
        (Some(e), Some(value)) => whole(e, value, functions, deletes),
        _ => Ok(()),
    }
}

/// What a statement without a call of its own computes.
#[tactic(auto, using(crate::proofs::Firsts::clear_both))]
fn computed(step: &Step, functions: &[Function], deletes: bool) -> Result<(), DeletesFault>
    ensures { result ≡ clear (rule.computed (map program.function_of functions.now) deletes (program.stmt_of step.now)) }
{
    match step {
        Step::Assign { value, .. } => within(value, functions, deletes),
        Step::Update { place, value, .. } => {
            within_place(place, functions, deletes)?;
            within(value, functions, deletes)
        }
        _ => Ok(()),
    }
}

#[tactic(auto, using(crate::proofs::Firsts::clear_both))]
fn assigned(
    e: &Expr,
    step: &Step,
    functions: &[Function],
    deletes: bool,
) -> Result<(), DeletesFault>
    ensures { result ≡ clear (rule.assigned (map program.function_of functions.now) deletes (written.expr_of e.now) (program.stmt_of step.now)) }
{
    match step {
        Step::Assign { value, .. } => whole(e, value, functions, deletes),
        Step::Store { place, value, .. } => {
            within_place(place, functions, deletes)?;
            within(value, functions, deletes)
        }
        Step::Copy { left, right, .. } => {
            within_place(left, functions, deletes)?;
            within_place(right, functions, deletes)
        }
        _ => Ok(()),
    }
}

#[tactic(auto, using(crate::proofs::Firsts::clear_own))]
fn alone(e: &Expr, step: &Step, functions: &[Function], deletes: bool) -> Result<(), DeletesFault>
    ensures { result ≡ clear (rule.alone (map program.function_of functions.now) deletes (written.expr_of e.now) (program.stmt_of step.now)) }
{
    match step {
        Step::Evaluate { value, .. } => whole(e, value, functions, deletes),
        Step::Delete { line, region } => {
            within(region, functions, deletes)?;
            deletion(*line, deletes)
        }
        _ => Ok(()),
    }
}

fn simply(
    simple: &Simple,
    step: &Step,
    functions: &[Function],
    deletes: bool,
) -> Result<(), DeletesFault>
    ensures { result ≡ clear (rule.simply (map program.function_of functions.now) deletes (written.simple_of simple.now) (program.stmt_of step.now)) }
{
    match simple {
        Simple::Expr(e) => alone(e, step, functions, deletes),
        Simple::Assign(_, _, right) => assigned(right, step, functions, deletes),
        Simple::Update(_, _, _, _) => computed(step, functions, deletes),
        Simple::StepAfter(_, _, _) => computed(step, functions, deletes),
        Simple::StepBefore(_, _, _) => computed(step, functions, deletes),
    }
}

fn simply_option(
    simple: &Option<Simple>,
    step: &Step,
    functions: &[Function],
    deletes: bool,
) -> Result<(), DeletesFault>
    ensures { result ≡ clear (rule.simply_option (map program.function_of functions.now) deletes (written.mapped written.simple_of simple.now) (program.stmt_of step.now)) }
{
    match simple {
        Some(simple) => simply(simple, step, functions, deletes),
        None => Ok(()),
    }
}

fn is_annotation(note: Note) -> bool
    ensures { result ≡ rule.is_annotation note }
{
    match note {
        Note::Plain => false,
        Note::SameRegion => true,
        Note::ParentPtr => true,
        Note::Traditional => true,
    }
}

fn is_annotated(stars: &[Note]) -> bool
    ensures { result ≡ rule.is_annotated (slice_get stars.now (length stars.now - 1)) }
{
    match stars.last() {
        Some(note) => is_annotation(*note),
        None => false,
    }
}

/// A type that is annotated on its last star nowhere.
fn annotation(at: Spot, type_name: &TypeName) -> Result<(), DeletesFault>
    ensures { result ≡ clear (rule.annotation at (written.type_of type_name.now)) }
{
    if is_annotated(&type_name.stars) {
        return Err(DeletesFault::AnnotationPlace(at.line));
    }
    Ok(())
}

#[tactic(auto, using(crate::proofs::Firsts::clear_own))]
fn locally(
    local: &Local,
    step: &Step,
    functions: &[Function],
    deletes: bool,
) -> Result<(), DeletesFault>
    ensures { result ≡ clear (rule.locally (map program.function_of functions.now) deletes (written.local_of local.now) (program.stmt_of step.now)) }
{
    match step {
        Step::Declare { value, .. } => {
            whole_option(&local.initial, value, functions, deletes)?;
            annotation(local.spot, &local.type_name)
        }
        _ => Ok(()),
    }
}

#[tactic(auto, using(crate::proofs::Firsts::clear_both))]
fn locals(
    locals: &[Local],
    steps: &[Step],
    functions: &[Function],
    deletes: bool,
) -> Result<(), DeletesFault>
    ensures { result ≡ clear (rule.locals (map program.function_of functions.now) deletes (map written.local_of locals.now) (program.stmts_of steps.now)) }
{
    for (i, local) in locals.iter().enumerate() {
        if i >= steps.len() {
            return Ok(());
        }
        locally(local, &steps[i], functions, deletes)?;
    }
    Ok(())
}

#[tactic(auto, using(rc_core::proofs::ShapeRows::block_is))]
fn start(
    start: &ForStart,
    step: &Step,
    functions: &[Function],
    deletes: bool,
) -> Result<(), DeletesFault>
    ensures { result ≡ clear (rule.start (map program.function_of functions.now) deletes (written.start_of start.now) (program.stmt_of step.now)) }
{
    match (start, step) {
        (ForStart::Simple(simple), _) => simply(simple, step, functions, deletes),
        (ForStart::Locals(declared), Step::Block { body }) => locals(
            declared, body, functions, deletes,
        ),
        _ => Ok(()),
    }
}

#[cycle(statements)]
#[tactic(auto, using(crate::proofs::Firsts::clear_both, rc_syntax::proofs::Rows::block_is, rc_core::proofs::ShapeRows::block_is))]
fn statement(
    s: &Stmt,
    step: &Step,
    functions: &[Function],
    deletes: bool,
) -> Result<(), DeletesFault>
    ensures { result ≡ clear (rule.stmt (map program.function_of functions.now) deletes (written.stmt_of s.now) (program.stmt_of step.now)) }
{
    match (s, step) {
        (Stmt::Local(local), _) => locally(local, step, functions, deletes),
        (Stmt::Block(_, body), Step::Block { body: steps }) => statements(
            body, steps, functions, deletes,
        ),
        (Stmt::Simple(_, simple), _) => simply(simple, step, functions, deletes),
        (Stmt::If(_, c, a, b), Step::If { test, yes, no, .. }) => {
            whole(c, test, functions, deletes)?;
            statement(a, yes, functions, deletes)?;
            match b {
                Some(b) => statement(b, no, functions, deletes),
                None => Ok(()),
            }
        }
        (Stmt::While(_, c, a), Step::While { test, body, .. }) => {
            whole(c, test, functions, deletes)?;
            statement(a, body, functions, deletes)
        }
        (Stmt::Do(_, a, c), Step::Do { body, test, .. }) => {
            statement(a, body, functions, deletes)?;
            whole(c, test, functions, deletes)
        }
        (
            Stmt::For(_, e, c, next, a),
            Step::For {
                first,
                test,
                third,
                body,
                ..
            },
        ) => {
            start(e, first, functions, deletes)?;
            whole_option(c, test, functions, deletes)?;
            simply_option(next, third, functions, deletes)?;
            statement(a, body, functions, deletes)
        }
        (Stmt::Return(_, e), Step::Return { value, .. }) => whole_option(
            e, value, functions, deletes,
        ),
        _ => Ok(()),
    }
}

#[cycle(statements)]
#[tactic(auto, using(crate::proofs::Firsts::clear_both))]
fn statements(
    body: &[Stmt],
    steps: &[Step],
    functions: &[Function],
    deletes: bool,
) -> Result<(), DeletesFault>
    ensures { result ≡ clear (rule.stmts (map program.function_of functions.now) deletes (written.stmts_of body.now) (program.stmts_of steps.now)) }
{
    for (i, s) in body.iter().enumerate() {
        if i >= steps.len() {
            return Ok(());
        }
        statement(s, &steps[i], functions, deletes)?;
    }
    Ok(())
}

#[tactic(auto, using(crate::proofs::Firsts::clear_both))]
fn parameters(params: &[Param]) -> Result<(), DeletesFault>
    ensures { result ≡ clear (rule.params (map written.param_of params.now)) }
{
    for param in params {
        annotation(param.spot, &param.type_name)?;
    }
    Ok(())
}

fn result_type(at: Spot, gives: &Option<TypeName>) -> Result<(), DeletesFault>
    ensures { result ≡ clear (rule.result at (written.mapped written.type_of gives.now)) }
{
    match gives {
        Some(type_name) => annotation(at, type_name),
        None => Ok(()),
    }
}

#[tactic(auto, using(rc_core::proofs::ShapeRows::block_is))]
fn function_body(
    body: &[Stmt],
    step: &Step,
    functions: &[Function],
    deletes: bool,
) -> Result<(), DeletesFault>
    ensures { result ≡ clear (rule.body_of (map program.function_of functions.now) deletes (written.stmts_of body.now) (program.stmt_of step.now)) }
{
    match step {
        Step::Block { body: steps } => statements(body, steps, functions, deletes),
        _ => Ok(()),
    }
}

/// A function beside that of the program, the one with the number `next`.
#[tactic(auto, using(crate::proofs::Firsts::clear_both, crate::proofs::Firsts::clear_own))]
fn function(
    functions: &[Function],
    deletes: bool,
    at: Spot,
    gives: &Option<TypeName>,
    params: &[Param],
    body: &Option<Vec<Stmt>>,
    next: usize,
) -> Result<(), DeletesFault>
    ensures { result ≡ clear (rule.function (map program.function_of functions.now) deletes at (written.mapped written.type_of gives.now) (map written.param_of params.now) (written.mapped (λ b. written.stmts_of b.items) body.now) (slice_get (map program.function_of functions.now) next)) }
{
    parameters(params)?;
    inner(functions, deletes, body, next)?;
    result_type(at, gives)
}

/// What stands inside of a function.
fn inner(
    functions: &[Function],
    deletes: bool,
    body: &Option<Vec<Stmt>>,
    next: usize,
) -> Result<(), DeletesFault>
    ensures { result ≡ clear (rule.inner (map program.function_of functions.now) deletes (written.mapped (λ b. written.stmts_of b.items) body.now) (slice_get (map program.function_of functions.now) next)) }
{
    match (body, functions.get(next)) {
        (Some(body), Some(f)) => function_body(body, &f.body, functions, deletes),
        _ => Ok(()),
    }
}

/// Looks at a tree beside the program that it was typed to, whose parts needn't meet the test of
/// programs. It takes no memory.
///
/// # Errors
///
/// The first fault in the order of the text: an annotation on the last star of a local, parameter
/// or result, a call of a function that `deletes` by a function that doesn't, or such a call
/// inside of something. What has a fault inside has none of its own.
#[tactic(auto, using(crate::proofs::Firsts::clear_none, crate::proofs::Firsts::clear_some))]
pub fn check_deletes(tree: &Tree, parts: &Parts) -> Result<(), DeletesFault>
    ensures ok { OnOk result (rule.deletes_faults (written.tree_of tree.now) (program.program_of parts.now) ≡ []) }
    ensures err { IfErr result (λ fault. first (rule.deletes_faults (written.tree_of tree.now) (program.program_of parts.now)) ≡ Some fault) }
{
    in_items(tree.items.as_slice(), parts.functions.as_slice())
}

fn in_item(item: &Item, functions: &[Function], next: usize) -> Result<(), DeletesFault>
    ensures { result ≡ clear (rule.item (map program.function_of functions.now) (written.item_of item.now) next) }
{
    match item {
        Item::Function(at, deletes, gives, _, params, body) => function(
            functions, *deletes, *at, gives, params, body, next,
        ),
        _ => Ok(()),
    }
}

/// The number of the program's next function, after an item.
fn behind(item: &Item, next: usize) -> usize
    requires { next < 18446744073709551615 }
    ensures number { result ≡ rule.behind (written.item_of item.now) next }
    ensures bound { result ≤ next + 1 }
{
    match item {
        Item::Function(_, _, _, _, _, Some(_)) => next + 1,
        _ => next,
    }
}

#[tactic(auto, using(crate::proofs::Firsts::clear_both))]
fn in_items(items: &[Item], functions: &[Function]) -> Result<(), DeletesFault>
    ensures { result ≡ clear (rule.items (map program.function_of functions.now) (map written.item_of items.now) 0) }
{
    let mut next = 0;
    for item in items {
        in_item(item, functions, next)?;
        next = behind(item, next);
    }
    Ok(())
}
