// Texts with their words and lines, and texts that are refused.

use rc_lexer::fault::LexFault;
use rc_lexer::lex::lex;
use rc_syntax::word::{Key, Mark, Text, Word};
use std::alloc::{AllocError, Global};
use std::test::Fail;

/// A word with its bytes borrowed.
#[derive(Clone, Copy)]
enum Is {
    Name(&'static [u8]),
    Number(u32, bool),
    Character(u8),
    Str(&'static [u8]),
    Key(Key),
    Mark(Mark),
}

fn has_bytes(text: &Text, bytes: &[u8]) -> bool {
    text.as_slice() == bytes
}

fn is_word(word: &Word, wanted: Is) -> bool {
    match wanted {
        Is::Name(bytes) => match word {
            Word::Name(text) => has_bytes(text, bytes),
            _ => false,
        },
        Is::Number(value, unsigned) => match word {
            Word::Number(v, u) => *v == value && *u == unsigned,
            _ => false,
        },
        Is::Character(value) => match word {
            Word::Character(v) => *v == value,
            _ => false,
        },
        Is::Str(bytes) => match word {
            Word::Str(text) => has_bytes(text, bytes),
            _ => false,
        },
        Is::Key(key) => match word {
            Word::Key(k) => *k == key,
            _ => false,
        },
        Is::Mark(mark) => match word {
            Word::Mark(m) => *m == mark,
            _ => false,
        },
    }
}

/// Whether the text is cut into these words on these lines.
fn is_cut(alloc: Global, text: &[u8], words: &[(u32, Is)]) -> bool {
    let Ok(tokens) = lex(alloc, text) else {
        return false
    };
    if tokens.len() != words.len() {
        return false;
    }
    for (token, (line, wanted)) in tokens.iter().zip(words) {
        if token.line != *line {
            return false;
        }
        if !is_word(&token.word, *wanted) {
            return false;
        }
    }
    true
}

/// Whether the text is refused so.
fn is_refused(alloc: Global, text: &[u8], fault: LexFault) -> bool {
    match lex(alloc, text) {
        Ok(_) => false,
        Err(given) => given == fault,
    }
}

#[test]
fn texts_are_cut(rt: HostRuntime) -> Result<(), Fail> {
    let alloc = rt.alloc();
    let (a, b, x) = (Is::Name(b"a"), Is::Name(b"b"), Is::Name(b"x"));
    assert!(rt; is_cut(alloc, b"", &[]));
    assert!(rt;
        is_cut(
            alloc,
            b"a+++b",
            &[
                (1, a),
                (1, Is::Mark(Mark::PlusPlus)),
                (1, Is::Mark(Mark::Plus)),
                (1, b)
            ]
        )
    );
    assert!(rt;
        is_cut(
            alloc,
            b"a--->b",
            &[
                (1, a),
                (1, Is::Mark(Mark::MinusMinus)),
                (1, Is::Mark(Mark::Arrow)),
                (1, b)
            ]
        )
    );
    assert!(rt;
        is_cut(
            alloc,
            b"a<<=b>>=x",
            &[
                (1, a),
                (1, Is::Mark(Mark::ShiftLeftEqual)),
                (1, b),
                (1, Is::Mark(Mark::ShiftRightEqual)),
                (1, x)
            ]
        )
    );
    assert!(rt;
        is_cut(
            alloc,
            b"a/=*b/ /x",
            &[
                (1, a),
                (1, Is::Mark(Mark::SlashEqual)),
                (1, Is::Mark(Mark::Star)),
                (1, b),
                (1, Is::Mark(Mark::Slash)),
                (1, Is::Mark(Mark::Slash)),
                (1, x)
            ]
        )
    );
    assert!(rt; is_cut(alloc, b"a /* \x00\xff\n * / $ */ b", &[(1, a), (2, b)]));
    assert!(rt; is_cut(alloc, b"// \"a\nx/**/", &[(2, x)]));
    assert!(rt; is_cut(alloc, b"\r\n\x0c\x0b\tx", &[(2, x)]));
    assert!(rt;
        is_cut(
            alloc,
            b"#include <a$\n \t#\t include\"b\nx\n#include",
            &[(3, x)]
        )
    );
    assert!(rt; is_cut(alloc, b"#include/*\n*", &[(2, Is::Mark(Mark::Star))]));
    assert!(rt;
        is_cut(
            alloc,
            b"ints int NULL goto _1",
            &[
                (1, Is::Name(b"ints")),
                (1, Is::Key(Key::Int)),
                (1, Is::Key(Key::Null)),
                (1, Is::Key(Key::Goto)),
                (1, Is::Name(b"_1"))
            ]
        )
    );
    Ok(())
}

#[test]
fn numbers_have_values_and_types(rt: HostRuntime) -> Result<(), Fail> {
    let alloc = rt.alloc();
    for (text, value, unsigned) in [
        (b"0".as_slice(), 0, false),
        (b"07", 7, false),
        (b"0u", 0, true),
        (b"0xfU", 15, true),
        (b"0X1a", 26, false),
        (b"2147483647", 2147483647, false),
        (b"2147483648u", 2147483648, true),
        (b"4294967295u", 4294967295, true),
        (b"0x7fffffff", 2147483647, false),
        (b"0x80000000", 2147483648, true),
        (b"020000000000", 2147483648, true),
    ] {
        assert!(rt; is_cut(alloc, text, &[(1, Is::Number(value, unsigned))]));
    }
    Ok(())
}

#[test]
fn literals_have_values(rt: HostRuntime) -> Result<(), Fail> {
    let alloc = rt.alloc();
    for (text, value) in [
        (b"'a'".as_slice(), 97),
        (b"'\"'", 34),
        (b"'\\''", 39),
        (b"'\\?'", 63),
        (b"'\\v'", 11),
        (b"'\\0'", 0),
        (b"'\\377'", 255),
        (b"'\\x4'", 4),
        (b"'\xff'", 255),
    ] {
        assert!(rt; is_cut(alloc, text, &[(1, Is::Character(value))]));
    }
    for (text, values) in [
        (b"\"\"".as_slice(), b"".as_slice()),
        (b"\"a//b/*'\"", b"a//b/*'"),
        (b"\"\\1234\\x41 \\18\"", b"S4A \x018"),
    ] {
        assert!(rt; is_cut(alloc, text, &[(1, Is::Str(values))]));
    }
    Ok(())
}

#[test]
fn bytes_that_begin_no_word_are_refused(rt: HostRuntime) -> Result<(), Fail> {
    let alloc = rt.alloc();
    for (text, line) in [
        (b"#".as_slice(), 1),
        (b"a\n#define b", 2),
        (b"#include2", 1),
        (b"# include\n#define x", 2),
        (b"x #include", 1),
        (b"\x0b#include", 1),
        (b"/*\n*/ #include", 2),
        (b"a\n b $ \"", 2),
        (b"@", 1),
        (b"\\", 1),
        (b"`", 1),
        (b"\x00", 1),
        (b"\x80", 1),
        (b"\xff", 1),
    ] {
        assert!(rt; is_refused(alloc, text, LexFault::Byte(line)));
    }
    Ok(())
}

#[test]
fn words_that_are_not_well_formed_are_refused(rt: HostRuntime) -> Result<(), Fail> {
    let alloc = rt.alloc();
    for (text, line) in [
        (b"a\n/* $".as_slice(), 2),
        (b"/*/", 1),
        (b"\n\n\"a", 3),
        (b"\"a\n\"", 1),
        (b"\"a\\\nb\"", 1),
        (b"\"\\q\"", 1),
        (b"\"\\x41B\"", 1),
        (b"'", 1),
        (b"''", 1),
        (b"'ab'", 1),
        (b"'\\400'", 1),
        (b"'\\x'", 1),
        (b"'\\x123'", 1),
        (b"08", 1),
        (b"0x", 1),
        (b"1.5", 1),
        (b"12ab", 1),
        (b"1uu", 1),
        (b"2147483648", 1),
        (b"4294967296", 1),
        (b"4294967296u", 1),
        (b"0x100000000", 1),
    ] {
        assert!(rt; is_refused(alloc, text, LexFault::Token(line)));
    }
    Ok(())
}

/// So many bytes that begin no word.
fn odd_bytes(alloc: Global, n: usize) -> Result<Vec<u8>, AllocError> {
    vec![in alloc; b'$'; n]
}

#[test]
fn a_text_of_more_than_a_mebibyte_is_too_long(rt: HostRuntime) -> Result<(), Fail> {
    let alloc = rt.alloc();
    let longest = odd_bytes(alloc, 1048576)?;
    assert!(rt; is_refused(alloc, longest.as_slice(), LexFault::Byte(1)));
    let longer = odd_bytes(alloc, 1048577)?;
    assert!(rt; is_refused(alloc, longer.as_slice(), LexFault::TooLong));
    Ok(())
}
