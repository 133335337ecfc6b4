// Texts with their answers. Words stand between spaces, and a `;;` ends a line.

use rc_parser::parse;
use rc_syntax::fault::ParseFault;
use rc_syntax::word::{Key, Mark, Text, Token, Word};
use std::alloc::{AllocError, Global};
use std::test::Fail;

/// What a parser answers.
#[derive(Clone, Copy)]
enum Is {
    Tree,
    Syntax(u32),
    Deep(u32),
}

fn word(alloc: Global, text: &str) -> Result<Word, AllocError> {
    let bytes = text.as_bytes();
    if let Some(key) = Key::named(bytes) {
        return Ok(Word::Key(key));
    }
    if let Some(mark) = Mark::at_front(bytes) {
        return Ok(Word::Mark(mark));
    }
    if text == "1" {
        return Ok(Word::Number(1, false));
    }
    Ok(Word::Name(Text::new(Vec::from_slice(alloc, bytes)?)?))
}

fn add_words(
    alloc: Global,
    tokens: &mut Vec<Token>,
    text: &str,
    first_line: u32,
) -> Result<(), AllocError> {
    let mut line = first_line;
    for piece in text.split(' ') {
        if piece == ";;" {
            line = line.saturating_add(1);
        } else if piece != "" {
            let word = word(alloc, piece)?;
            tokens.push(Token { word, line })?;
        }
    }
    Ok(())
}

fn is_answer(alloc: Global, tokens: &[Token], wanted: Is) -> bool {
    if tokens.len() > 1048576 {
        return false;
    }
    match parse(alloc, tokens) {
        Ok(_) => matches!(wanted, Is::Tree),
        Err(ParseFault::Syntax(line)) => match wanted {
            Is::Syntax(place) => line == place,
            _ => false,
        },
        Err(ParseFault::Deep(line)) => match wanted {
            Is::Deep(place) => line == place,
            _ => false,
        },
        Err(ParseFault::Memory) => false,
    }
}

/// Whether this text, on lines from 1 on, is answered so.
fn text_is(alloc: Global, text: &str, wanted: Is) -> Result<bool, AllocError> {
    let mut tokens = Vec::new(alloc);
    add_words(alloc, &mut tokens, text, 1)?;
    Ok(is_answer(alloc, &tokens, wanted))
}

/// Whether a function whose body is these words is answered so; the body begins on line 2.
fn body_is(alloc: Global, body: &str, wanted: Is) -> Result<bool, AllocError> {
    let mut tokens = Vec::new(alloc);
    add_words(alloc, &mut tokens, "int f ( void ) {", 1)?;
    add_words(alloc, &mut tokens, body, 2)?;
    add_words(alloc, &mut tokens, "}", 3)?;
    Ok(is_answer(alloc, &tokens, wanted))
}

/// Adds these words so many times.
fn add_repeated(
    alloc: Global,
    tokens: &mut Vec<Token>,
    text: &str,
    times: u32,
) -> Result<(), AllocError> {
    for _ in 0..times {
        add_words(alloc, tokens, text, 1)?;
    }
    Ok(())
}

/// Adds a function whose body has some words, then these words so many times, then some words, these so
/// many times, and some more.
fn add_function(
    alloc: Global,
    tokens: &mut Vec<Token>,
    parts: &[&str; 5],
    times: u32,
) -> Result<(), AllocError> {
    add_words(alloc, tokens, "int f ( void ) {", 1)?;
    add_words(alloc, tokens, parts[0], 1)?;
    add_repeated(alloc, tokens, parts[1], times)?;
    add_words(alloc, tokens, parts[2], 1)?;
    add_repeated(alloc, tokens, parts[3], times)?;
    add_words(alloc, tokens, parts[4], 1)?;
    add_words(alloc, tokens, "}", 1)
}

/// Whether such a function is answered so.
fn repeated_is(
    alloc: Global,
    parts: &[&str; 5],
    times: u32,
    wanted: Is,
) -> Result<bool, AllocError> {
    let mut tokens = Vec::new(alloc);
    add_function(alloc, &mut tokens, parts, times)?;
    Ok(is_answer(alloc, &tokens, wanted))
}

#[test]
fn statements(rt: HostRuntime) -> Result<(), Fail> {
    let alloc = rt.alloc();
    for (body, wanted) in [
        ("a + a = 1 ;", Is::Syntax(2)),
        ("* p ++ ;", Is::Tree),
        ("++ * p ;", Is::Tree),
        ("( a ) = 1 ;", Is::Tree),
        ("( int ) x = 1 ;", Is::Tree),
        ("f ( ) = 1 ;", Is::Tree),
        ("if ( a ) if ( b ) ; else ; else ;", Is::Tree),
        ("if ( a ) ; else ; ;; else ;", Is::Syntax(3)),
        ("for ( ; ; ) ;", Is::Tree),
        ("for ( int i = 1 ; ; ) ;", Is::Tree),
        ("do ; while ( 1 )", Is::Syntax(3)),
        ("return", Is::Syntax(3)),
        ("int a = 1 , * sameregion b ; ; a ;", Is::Tree),
        ("a = ;; 1 ;; = 1 ;", Is::Syntax(4)),
    ] {
        assert!(rt; body_is(alloc, body, wanted)?);
    }
    Ok(())
}

#[test]
fn items(rt: HostRuntime) -> Result<(), Fail> {
    let alloc = rt.alloc();
    for (text, wanted) in [
        ("", Is::Tree),
        ("int f ( void ;; ;", Is::Syntax(2)),
        ("struct s { } ;", Is::Syntax(1)),
        (
            "struct s { int a ; struct s * sameregion b , c [ 1 ] ; } ;",
            Is::Tree,
        ),
        ("struct s a , * b ;", Is::Tree),
        ("int a [ ] ;", Is::Syntax(1)),
        ("int a [ 1 ] [ 1 ] ;", Is::Syntax(1)),
        ("unsigned int x = - 1 ;", Is::Tree),
        ("deletes deletes int f ( void ) ;", Is::Syntax(1)),
        ("deletes void f ( int , char * s ) { }", Is::Tree),
        ("int f ( ) deletes ;; deletes { }", Is::Syntax(2)),
        ("int ;; ;; f", Is::Syntax(3)),
        ("int f ( ) { } ;; }", Is::Syntax(2)),
    ] {
        assert!(rt; text_is(alloc, text, wanted)?);
    }
    Ok(())
}

#[test]
fn depths(rt: HostRuntime) -> Result<(), Fail> {
    let alloc = rt.alloc();
    for (parts, most) in [
        (&["", "{", ";", "}", ""], 199),
        (&["", "if ( a )", ";", "", ""], 199),
        (&["", "if ( a ) ; else", ";", "", ""], 199),
        (&["", "while ( a )", ";", "", ""], 199),
        (&["", "do", ";", "while ( a ) ;", ""], 199),
        (&["", "for ( ; ; )", ";", "", ""], 199),
        (&["", "!", "a ;", "", ""], 198),
        (&["", "( int )", "a ;", "", ""], 198),
        (&["", "(", "a", ")", ";"], 198),
        (&["", "f (", "a", ")", ";"], 198),
        (&["a", "? a : a", ";", "", ""], 198),
        (&["int", "*", "a ;", "", ""], 200),
    ] {
        assert!(rt; repeated_is(alloc, parts, most, Is::Tree)?);
        assert!(rt; repeated_is(alloc, parts, most.saturating_add(1), Is::Deep(1))?);
    }
    Ok(())
}

#[test]
fn lengths(rt: HostRuntime) -> Result<(), Fail> {
    let alloc = rt.alloc();
    for (parts, times, wanted) in [
        // An expression of 1,023 words, and one of 1,025.
        (&["", "a +", "a ;", "", ""], 511, Is::Tree),
        (&["", "a +", "a ;", "", ""], 512, Is::Deep(1)),
        // Arrows in a row, and conditionals each in the middle of the one before.
        (&["a", "-> b", ";", "", ""], 511, Is::Tree),
        (&["", "a ?", "a", ": a", ";"], 255, Is::Tree),
        (&["", "a ?", "a", ": a", ";"], 500, Is::Deep(1)),
        // What one statement has doesn't count in the next.
        (&["", "a = a ;", "", "int a ;", ""], 2000, Is::Tree),
        (&["f ( a", "", "", ", a", ") ;"], 500, Is::Tree),
    ] {
        let part = parts[1];
        assert!(rt;
            repeated_is(alloc, parts, times, wanted)?,
            "{part} {times} times"
        );
    }
    Ok(())
}

/// Adds so many empty statements.
fn add_semicolons(tokens: &mut Vec<Token>, times: u32) -> Result<(), AllocError> {
    for _ in 0..times {
        let word = Word::Mark(Mark::Semicolon);
        tokens.push(Token { word, line: 2 })?;
    }
    Ok(())
}

/// Whether a block of so many statements is parsed.
fn block_is_parsed(alloc: Global, statements: u32) -> Result<bool, AllocError> {
    let mut tokens = Vec::new(alloc);
    add_words(alloc, &mut tokens, "int f ( void ) {", 1)?;
    add_semicolons(&mut tokens, statements)?;
    add_words(alloc, &mut tokens, "}", 3)?;
    Ok(is_answer(alloc, &tokens, Is::Tree))
}

#[test]
fn long_block(rt: HostRuntime) -> Result<(), Fail> {
    assert!(rt; block_is_parsed(rt.alloc(), 300_000)?);
    Ok(())
}
