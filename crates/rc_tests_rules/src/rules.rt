// Each public function once, with memory at hand.
use rc_core::expr::{Expr, Place};
use rc_core::operators::{Direction, Operator};
use rc_core::parts::Field;
use rc_core::stmt::Change;
use rc_core::ty::{NumberType, Signedness, Ty};
use rc_deletes::{Builtin, Refusal};
use rc_item_rules::{
    RightSide, alone_rule, assignment, declaration, function_name, gives_int, global_rule,
    initial_of, is_struct_option, is_twice, main_shape, once, one, returned, right_side,
    step_operator, takes_nothing, update_of,
};
use rc_operators::{
    binary_rule, cast_rule, cast_type, change_of, changed, conditional_rule, unary_rule,
};
use rc_rules::{
    Callee, Found, Meaning, Signature, allocation, array_allocation, call_statement, call_value,
    callee_rule, eof_value, field_rule, index_rule, indexed_part, name_rule, null_value,
    number_value, signedness, string_value, unary_meant,
};
use rc_syntax::tree::{
    BinaryOp, CastType, Constant, Name, Note as WrittenNote, Spot, StepOp, UnaryOp,
};
use rc_syntax::word::Text;
use rc_typed_values::{
    Meant, Stop, Typed, add, as_value, boxed, condition_rule, copy_of, fitted, refuse_where,
    same_type, starred,
};
use std::alloc::{AllocError, Global};
use std::test::Fail;

const AT: Spot = Spot { place: 4, line: 2 };

const INNER: Spot = Spot { place: 5, line: 3 };

fn three(alloc: Global) -> Result<Typed, Stop> {
    number_value(alloc, INNER, Signedness::Signed, 3)
}

fn local(alloc: Global, ty: Ty) -> Result<Typed, Stop> {
    let code = boxed(alloc, Expr::Local { line: 3, local: 0 })?;
    Ok(Typed {
        line: 3,
        ty: Some(ty),
        code,
    })
}

fn global(alloc: Global) -> Result<Box<Place>, Stop> {
    let path = Vec::new(alloc);
    boxed(alloc, Place::Global { global: 0, path })
}

fn name(alloc: Global) -> Result<Name, AllocError> {
    let text = Text::new(Vec::new(alloc))?;
    Ok(Name { spot: INNER, text })
}

fn holds<T: Drop>(outcome: Result<T, Stop>) -> bool {
    outcome.is_ok()
}

fn fits<T: Drop>(outcome: Result<Option<T>, Stop>) -> bool {
    match outcome {
        Ok(found) => found.is_some(),
        Err(_) => false,
    }
}

fn refused<T: Drop>(outcome: Result<T, Stop>) -> Option<(Spot, Refusal)> {
    match outcome {
        Ok(_) => None,
        Err(Stop::Memory) => None,
        Err(Stop::Rule(fault)) => Some((fault.at, fault.refusal)),
    }
}

fn copy_is_the_same(alloc: Global) -> Result<bool, Stop> {
    let written = starred(alloc, Ty::Struct(1), &[WrittenNote::SameRegion])?;
    let copy = copy_of(alloc, &written)?;
    Ok(same_type(&copy, &written))
}

fn other_note_is_the_same(alloc: Global) -> Result<bool, Stop> {
    let written = starred(alloc, Ty::Struct(1), &[WrittenNote::SameRegion])?;
    let plain = starred(alloc, Ty::Struct(1), &[WrittenNote::Plain])?;
    Ok(same_type(&plain, &written))
}

#[test]
fn types_are_written_and_compared(rt: HostRuntime) -> Result<(), Fail> {
    assert!(rt; copy_is_the_same(rt.alloc())?);
    assert!(rt; !other_note_is_the_same(rt.alloc())?);
    Ok(())
}

/// What a rule is asked that refuses it.
#[derive(Clone, Copy)]
enum Asked {
    SumWithNull,
    NotOfStruct,
    CallOfNoFunction,
    MissingField,
    CallWithoutArgument,
    DeletionOfNumber,
    NullAlone,
    GlobalOfNone,
    NameOfBuiltin,
    NameTwice,
    Broken,
}

fn refusal(alloc: Global, asked: Asked) -> Result<Option<(Spot, Refusal)>, Stop> {
    match asked {
        Asked::SumWithNull => {
            let three = three(alloc)?;
            let null = null_value(alloc, INNER)?;
            Ok(refused(binary_rule(alloc, AT, BinaryOp::Add, three, null)))
        }
        Asked::NotOfStruct => {
            let structure = Meant::Place(global(alloc)?, Ty::Struct(0));
            Ok(refused(unary_meant(alloc, AT, UnaryOp::Not, INNER, structure)))
        }
        Asked::CallOfNoFunction => {
            Ok(refused(call_value(alloc, AT, Callee::NoFunction, Vec::new(alloc))))
        }
        Asked::MissingField => {
            let name = name(alloc)?;
            Ok(refused(field_rule(alloc, &name, global(alloc)?, 1, None)))
        }
        Asked::CallWithoutArgument => {
            let putchar = Callee::Builtin(Builtin::Putchar);
            Ok(refused(call_value(alloc, AT, putchar, Vec::new(alloc))))
        }
        Asked::DeletionOfNumber => {
            let delete = Callee::Builtin(Builtin::DeleteRegion);
            Ok(refused(call_statement(alloc, AT, delete, one_value(alloc)?)))
        }
        Asked::NullAlone => Ok(refused(alone_rule(alloc, AT, null_value(alloc, AT)?))),
        Asked::GlobalOfNone => Ok(refused(global_rule(AT, Some(0), 0, Some(0)))),
        Asked::NameOfBuiltin => {
            let name = name(alloc)?;
            let putchar = Meaning::Builtin(Builtin::Putchar);
            let signature = signature(alloc);
            Ok(refused(function_name(&name, false, 0, Some(&putchar), &signature)))
        }
        Asked::NameTwice => {
            let name = name(alloc)?;
            Ok(refused(once(&name, true)))
        }
        Asked::Broken => Ok(refused(refuse_where(true, AT, Refusal::TooBig))),
    }
}

/// An operator with operands that it takes.
#[derive(Clone, Copy)]
enum Operation {
    Binary,
    Conditional,
    Cast,
    Unary,
    Change,
    Computed,
    Stepped,
}

fn takes_operands(alloc: Global, operation: Operation) -> Result<bool, Stop> {
    match operation {
        Operation::Binary => {
            let bytes = local(alloc, Ty::Char)?;
            let three = three(alloc)?;
            Ok(holds(binary_rule(alloc, AT, BinaryOp::Subtract, bytes, three)))
        }
        Operation::Conditional => {
            let region = local(alloc, Ty::Region)?;
            let left = three(alloc)?;
            let right = three(alloc)?;
            Ok(holds(conditional_rule(alloc, AT, region, left, right)))
        }
        Operation::Cast => {
            Ok(holds(cast_rule(alloc, AT, cast_type(CastType::Char), three(alloc)?)))
        }
        Operation::Unary => Ok(holds(unary_rule(alloc, AT, UnaryOp::Minus, three(alloc)?))),
        Operation::Change => {
            Ok(fits(change_of(alloc, BinaryOp::ShiftLeft, &Ty::Unsigned, three(alloc)?)))
        }
        Operation::Computed => {
            let change = Change::Compute {
                from: NumberType::Char,
                operator: Operator::Add,
                signedness: Signedness::Signed,
            };
            let bytes = local(alloc, Ty::Char)?;
            let null = boxed(alloc, Expr::Null { line: 2 })?;
            Ok(holds(changed(alloc, 2, bytes, change, null)))
        }
        Operation::Stepped => {
            let step = Change::Step {
                direction: Direction::Forward,
            };
            let three = three(alloc)?;
            let null = boxed(alloc, Expr::Null { line: 2 })?;
            Ok(holds(changed(alloc, 2, three, step, null)))
        }
    }
}

#[test]
fn operators_take_their_operands(rt: HostRuntime) -> Result<(), Fail> {
    let operations = [
        Operation::Binary,
        Operation::Conditional,
        Operation::Cast,
        Operation::Unary,
        Operation::Change,
        Operation::Computed,
        Operation::Stepped,
    ];
    for (place, operation) in operations.iter().enumerate() {
        assert!(rt;
            takes_operands(rt.alloc(), *operation)?,
            "operation {place}"
        );
    }
    let null = refusal(rt.alloc(), Asked::SumWithNull)?;
    assert_eq!(rt; null, Some((AT, Refusal::Mistyped)));
    Ok(())
}

/// An expression that a rule takes.
#[derive(Clone, Copy)]
enum Expression {
    Value,
    Condition,
    EndOfFile,
    Str,
    ArrayItself,
    Index,
    Address,
}

fn is_taken(alloc: Global, expression: Expression) -> Result<bool, Stop> {
    match expression {
        Expression::Value => {
            let place = Meant::Place(global(alloc)?, Ty::Int);
            Ok(holds(as_value(alloc, AT, place)))
        }
        Expression::Condition => Ok(holds(condition_rule(AT, three(alloc)?))),
        Expression::EndOfFile => Ok(fits(fitted(alloc, &Ty::Char, eof_value(alloc, INNER)?))),
        Expression::Str => Ok(holds(string_value(alloc, AT, 0))),
        Expression::ArrayItself => {
            let array = Meant::Array(global(alloc)?, 1, 2, Ty::Char);
            Ok(holds(indexed_part(alloc, AT, array)))
        }
        Expression::Index => {
            let array = Meant::Array(global(alloc)?, 1, 2, Ty::Char);
            let three = three(alloc)?;
            Ok(holds(index_rule(alloc, AT, array, three)))
        }
        Expression::Address => {
            let place = Meant::Place(global(alloc)?, Ty::Int);
            Ok(holds(unary_meant(alloc, AT, UnaryOp::Address, INNER, place)))
        }
    }
}

#[test]
fn expressions_are_ruled(rt: HostRuntime) -> Result<(), Fail> {
    assert_eq!(rt; signedness(false, 2_147_483_648), Signedness::Unsigned);
    let expressions = [
        Expression::Value,
        Expression::Condition,
        Expression::EndOfFile,
        Expression::Str,
        Expression::ArrayItself,
        Expression::Index,
        Expression::Address,
    ];
    for (place, expression) in expressions.iter().enumerate() {
        assert!(rt; is_taken(rt.alloc(), *expression)?, "expression {place}");
    }
    let operand = refusal(rt.alloc(), Asked::NotOfStruct)?;
    assert_eq!(rt; operand, Some((INNER, Refusal::Mistyped)));
    Ok(())
}

fn finds_a_field(alloc: Global) -> Result<bool, Stop> {
    let name = name(alloc)?;
    let field = Field {
        ty: Ty::Region,
        length: None,
    };
    let found = Found {
        number: 4,
        field: &field,
    };
    Ok(holds(field_rule(alloc, &name, global(alloc)?, 1, Some(found))))
}

fn finds_a_name(alloc: Global) -> bool {
    let meaning = Meaning::Local(3, Ty::Char);
    holds(name_rule(alloc, AT, Some(&meaning)))
}

fn finds_a_name_twice() -> bool {
    let meaning = Meaning::Local(3, Ty::Char);
    is_twice(3, Some(&meaning))
}

fn finds_a_callee() -> bool {
    let meaning = Meaning::Local(3, Ty::Char);
    holds(callee_rule(AT, Some(&meaning)))
}

#[test]
fn names_and_fields_are_found(rt: HostRuntime) -> Result<(), Fail> {
    assert!(rt; finds_a_name(rt.alloc()));
    assert!(rt; finds_a_name_twice());
    assert!(rt; finds_a_callee());
    let none = refusal(rt.alloc(), Asked::CallOfNoFunction)?;
    assert_eq!(rt; none, Some((AT, Refusal::Mistyped)));
    assert!(rt; finds_a_field(rt.alloc())?);
    let missing = refusal(rt.alloc(), Asked::MissingField)?;
    assert_eq!(rt; missing, Some((INNER, Refusal::Unknown)));
    Ok(())
}

fn one_value(alloc: Global) -> Result<Vec<Typed>, Stop> {
    let mut values = Vec::new(alloc);
    add(&mut values, three(alloc)?)?;
    Ok(values)
}

/// A call that a rule takes.
#[derive(Clone, Copy)]
enum Call {
    Value,
    Statement,
    Allocation,
    ArrayAllocation,
}

fn is_called(alloc: Global, call: Call) -> Result<bool, Stop> {
    let putchar = Callee::Builtin(Builtin::Putchar);
    match call {
        Call::Value => Ok(holds(call_value(alloc, AT, putchar, one_value(alloc)?))),
        Call::Statement => Ok(holds(call_statement(alloc, AT, putchar, one_value(alloc)?))),
        Call::Allocation => {
            let region = local(alloc, Ty::Region)?;
            Ok(holds(allocation(alloc, AT, Ty::Int, region)))
        }
        Call::ArrayAllocation => {
            let region = local(alloc, Ty::Region)?;
            let three = three(alloc)?;
            Ok(holds(array_allocation(alloc, AT, Ty::Int, region, three)))
        }
    }
}

#[test]
fn calls_are_ruled(rt: HostRuntime) -> Result<(), Fail> {
    let calls = [
        Call::Value,
        Call::Statement,
        Call::Allocation,
        Call::ArrayAllocation,
    ];
    for (place, call) in calls.iter().enumerate() {
        assert!(rt; is_called(rt.alloc(), *call)?, "call {place}");
    }
    let none = refusal(rt.alloc(), Asked::CallWithoutArgument)?;
    assert_eq!(rt; none, Some((AT, Refusal::Arity)));
    let mistyped = refusal(rt.alloc(), Asked::DeletionOfNumber)?;
    assert_eq!(rt; mistyped, Some((AT, Refusal::Mistyped)));
    Ok(())
}

/// Whether a struct of so many cells may be assigned to one of the same type.
fn may_be_assigned(alloc: Global, cells: u32) -> Result<bool, Stop> {
    let whole = RightSide::Struct(global(alloc)?, 0);
    let left = Meant::Place(global(alloc)?, Ty::Struct(0));
    Ok(fits(assignment(alloc, 2, &[cells], left, whole)))
}

/// A statement, or a part of one, that a rule takes.
#[derive(Clone, Copy)]
enum Statement {
    RightSide,
    Update,
    Declaration,
    Return,
}

fn statement_fits(alloc: Global, statement: Statement) -> Result<bool, Stop> {
    match statement {
        Statement::RightSide => {
            let value = Meant::Value(three(alloc)?);
            Ok(holds(right_side(alloc, AT, value)))
        }
        Statement::Update => {
            let up = step_operator(StepOp::Increment);
            let variable = Meant::Variable(0, Ty::Char);
            Ok(fits(update_of(alloc, 2, 3, up, variable, one(alloc, 2)?)))
        }
        Statement::Declaration => Ok(fits(declaration(alloc, 2, 0, &Ty::Int, None))),
        Statement::Return => {
            let three = three(alloc)?;
            Ok(fits(returned(alloc, 2, &Some(Ty::Int), Some(three))))
        }
    }
}

#[test]
fn statements_fit(rt: HostRuntime) -> Result<(), Fail> {
    assert!(rt; may_be_assigned(rt.alloc(), 256)?);
    assert!(rt; !may_be_assigned(rt.alloc(), 257)?);
    let statements = [
        Statement::RightSide,
        Statement::Update,
        Statement::Declaration,
        Statement::Return,
    ];
    for (place, statement) in statements.iter().enumerate() {
        assert!(rt;
            statement_fits(rt.alloc(), *statement)?,
            "statement {place}"
        );
    }
    let null = refusal(rt.alloc(), Asked::NullAlone)?;
    assert_eq!(rt; null, Some((AT, Refusal::Mistyped)));
    Ok(())
}

fn signature(alloc: Global) -> Signature {
    Signature {
        takes: Vec::new(alloc),
        gives: Some(Ty::Int),
        deletes: false,
    }
}

/// Whether a function may have the name that has this meaning, or none.
fn may_be_named(alloc: Global, builtin: Option<Builtin>) -> Result<bool, Stop> {
    let name = name(alloc)?;
    let signature = signature(alloc);
    match builtin {
        Some(builtin) => {
            let meaning = Meaning::Builtin(builtin);
            Ok(holds(function_name(&name, false, 0, Some(&meaning), &signature)))
        }
        None => Ok(holds(function_name(&name, false, 0, None, &signature))),
    }
}

/// What an unsigned global that is `-1` at first begins with.
fn initial_of_minus_one() -> Option<i64> {
    let minus = Some(Constant::Negative(INNER, 1, false));
    initial_of(&Ty::Unsigned, None, &minus)
}

#[test]
fn items_are_ruled(rt: HostRuntime) -> Result<(), Fail> {
    assert_eq!(rt; initial_of_minus_one(), Some(4_294_967_295));
    assert!(rt; holds(global_rule(AT, None, 1_048_576, Some(7))));
    assert!(rt; may_be_named(rt.alloc(), None)?);
    assert!(rt; may_be_named(rt.alloc(), Some(Builtin::Getchar))?);
    let refusals = [
        (Asked::GlobalOfNone, AT, Refusal::TooBig),
        (Asked::NameOfBuiltin, INNER, Refusal::Mistyped),
        (Asked::NameTwice, INNER, Refusal::Twice),
        (Asked::Broken, AT, Refusal::TooBig),
    ];
    for (place, (asked, at, fault)) in refusals.iter().enumerate() {
        let answer = refusal(rt.alloc(), *asked)?;
        assert_eq!(rt; answer, Some((*at, *fault)), "refusal {place}");
    }
    assert!(rt; !is_struct_option(&None));
    assert!(rt; !gives_int(&None));
    assert!(rt; takes_nothing(&[]));
    assert_eq!(rt; main_shape(AT, false), Some(2));
    Ok(())
}
