// Words that are read as expressions, and words that are refused.

use rc_expr::{ParseFault, expression, unary};
use rc_syntax::tree::{BinaryOp, Expr, UnaryOp};
use rc_syntax::word::{Mark, Text, Token, Word};
use std::alloc::{AllocError, Global};
use std::test::Fail;

fn on_line(line: u32, word: Word) -> Token {
    Token { word, line }
}

fn named(alloc: Global, name: u8) -> Result<Word, AllocError> {
    Ok(Word::Name(Text::new(Vec::from_array(alloc, [name])?)?))
}

/// Whether it is the number that a word has.
fn is_number(tree: &Expr, value: u32) -> bool {
    match tree {
        Expr::Number(_, number, _) => *number == value,
        _ => false,
    }
}

/// Whether it is a difference whose right side is this number.
fn is_less(tree: &Expr, value: u32) -> bool {
    match tree {
        Expr::Binary(_, BinaryOp::Subtract, _, right) => is_number(right, value),
        _ => false,
    }
}

/// Whether it is a difference of a difference from the right, and where it ends.
fn ends_behind_differences(given: Result<(Box<Expr>, u32), ParseFault>, end: u32) -> bool {
    let Ok((tree, place)) = given else {
        return false
    };
    if place != end {
        return false;
    }
    match &*tree {
        Expr::Binary(_, BinaryOp::Subtract, left, right) => is_less(left, 1) && is_number(right, 2),
        _ => false,
    }
}

/// Whether it is what a pointer leads to, and where it ends.
fn ends_behind_target(given: Result<(Box<Expr>, u32), ParseFault>, end: u32) -> bool {
    let Ok((tree, place)) = given else {
        return false
    };
    if place != end {
        return false;
    }
    match &*tree {
        Expr::Unary(_, UnaryOp::Dereference, _) => true,
        _ => false,
    }
}

/// Whether it is no expression, with this line.
fn stops(given: Result<(Box<Expr>, u32), ParseFault>, line: u32) -> bool {
    match given {
        Err(ParseFault::Syntax(found)) => found == line,
        _ => false,
    }
}

/// Whether a word is too deep, with this line.
fn is_deep(given: Result<(Box<Expr>, u32), ParseFault>, line: u32) -> bool {
    match given {
        Err(ParseFault::Deep(found)) => found == line,
        _ => false,
    }
}

/// `a - 1 - 2;` on three lines, and then `*a - 2`.
fn words(alloc: Global) -> Result<Vec<Token>, AllocError> {
    Ok(Vec::from_array(
        alloc,
        [
            on_line(1, named(alloc, b'a')?),
            on_line(1, Word::Mark(Mark::Minus)),
            on_line(2, Word::Number(1, false)),
            on_line(2, Word::Mark(Mark::Minus)),
            on_line(3, Word::Number(2, false)),
            on_line(3, Word::Mark(Mark::Semicolon)),
            on_line(4, Word::Mark(Mark::Star)),
            on_line(4, named(alloc, b'a')?),
            on_line(4, Word::Mark(Mark::Minus)),
        ],
    )?)
}

#[test]
fn expressions_are_read_as_far_as_they_go(rt: HostRuntime) -> Result<(), Fail> {
    let alloc = rt.alloc();
    let tokens = words(alloc)?;
    assert_eq!(rt; tokens.len(), 9);
    let tokens = tokens.as_slice();
    assert!(rt; ends_behind_differences(expression(alloc, tokens, 0, 0), 5));
    assert!(rt; ends_behind_target(unary(alloc, tokens, 6, 0), 8));
    assert!(rt; stops(expression(alloc, tokens, 6, 0), 4));
    assert!(rt; stops(expression(alloc, tokens, 5, 0), 3));
    assert!(rt; is_deep(unary(alloc, tokens, 6, 200), 4));
    Ok(())
}
