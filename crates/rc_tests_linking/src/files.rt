// Small files, alone and together.
ghost use Rattle.rc_syntax.specs.Shape.{tree_of};
ghost use Rattle.rc_compile.specs.Answers.{IsOnlyTree};

use rc_answers::LinkRefusal;
use rc_compile::{CompileFault, Refusal, tree};
use rc_link::{LinkFault, link};
use rc_linked_files::{
    a_joined_program_is_not_large, files_have_a_program_together, joined_files_keep_limits,
    stubs_keep_limits,
};
use rc_linked_texts::{
    linked_programs_are_well_typed, linked_programs_delete_in_place, text_unit,
    texts_come_to_one_thing,
};
use rc_linking::{a_text_is_limited, examples_compute};
use rc_scope::Names;
use rc_syntax::tree::{Item, Name, Tree};
use rc_typing::TypeFault;
use rc_units::{Unit, add_functions, is_built_in, unit};
use std::alloc::Global;
use std::test::Fail;

const A: &[u8] = b"int twice(int x); int main(void) { return twice(21); }";

const B: &[u8] = b"int twice(int x) { return x + x; }";

const C: &[u8] = b"unsigned twice(int x) { return 1; }";

const D: &[u8] = b"int twice(int);\nint twice(int x) {\nreturn y; }";

const M: &[u8] = b"int main(int x);\n\n";

const P: &[u8] = b"int x[1048576];";

const Q: &[u8] = b"int y[1048576]; int main(void) { return 0; }";

const S: &[u8] = b"struct pair { int a; char b[2]; }; struct pair p; int sum(struct pair *q);";

const T: &[u8] = b"struct pair { int a;\nchar b[3]; };";

const U: &[u8] = b"struct pair { int c; }; int sum;";

/// The unit of the tree of a text, or why it has none.
fn tree_unit(alloc: Global, _text: &[u8], tree: &Tree) -> Result<Unit, TypeFault>
    requires tree { IsOnlyTree _text.now (tree_of tree.now) }
{
    unit(alloc, tree)
}

/// The unit of a text, or why its tree has none; nothing where it has no tree.
fn unit_of(alloc: Global, text: &[u8]) -> Option<Result<Unit, TypeFault>> {
    let Ok(tree) = tree(alloc, text) else {
        return None;
    };
    Some(tree_unit(alloc, text, &tree))
}

/// Why a file is refused by itself, if it is.
fn alone(alloc: Global, text: &[u8]) -> Option<TypeFault> {
    match unit_of(alloc, text) {
        Some(Err(fault)) => Some(fault),
        _ => None,
    }
}

/// Why a text is refused as a file, if it is.
fn refused(alloc: Global, text: &[u8]) -> Option<CompileFault> {
    match text_unit(alloc, text) {
        Ok(_) => None,
        Err(fault) => Some(fault),
    }
}

/// The name of an item.
fn name_of(item: &Item) -> &Name {
    match item {
        Item::Struct(_, name, _) => name,
        Item::Global(_, _, name, _, _) => name,
        Item::Function(_, _, _, name, _, _) => name,
    }
}

/// How many functions a text defines, and how many of its items have the name of a built-in one.
fn functions_of(alloc: Global, text: &[u8]) -> Option<(usize, u32)> {
    let tree = tree(alloc, text).ok()?;
    let mut names = Names::new(alloc);
    add_functions(&mut names, &tree.items).ok()?;
    let mut built_in = 0_u32;
    for item in &tree.items {
        if is_built_in(name_of(item)) {
            built_in = built_in.saturating_add(1);
        }
    }
    Some((names.len(), built_in))
}

/// How many items the unit of a text has, if it has one.
fn items_of(alloc: Global, text: &[u8]) -> Option<usize> {
    match unit_of(alloc, text) {
        Some(Ok(unit)) => Some(unit.tree().items.len()),
        _ => None,
    }
}

/// The units of texts that have some.
fn units_of(alloc: Global, texts: &[&[u8]]) -> Option<Vec<Unit>> {
    let mut units = Vec::new(alloc);
    for text in texts {
        match unit_of(alloc, text) {
            Some(Ok(unit)) => units.push(unit).ok()?,
            _ => return None,
        }
    }
    Some(units)
}

/// Whether these files are linked, and with this answer.
fn together(alloc: Global, texts: &[&[u8]], answer: Result<usize, LinkFault>) -> bool {
    let Some(units) = units_of(alloc, texts) else {
        return false;
    };
    if units.len() > 16 {
        return false;
    }
    match link(alloc, &units) {
        Ok(program) => answer == Ok(program.parts().functions.len()),
        Err(fault) => answer == Err(fault),
    }
}

#[test]
fn files_are_checked_by_themselves(rt: HostRuntime) -> Result<(), Fail> {
    let rows: [(&[u8], Option<TypeFault>); 6] = [
        (A, None),
        (B, None),
        (D, Some(TypeFault::Unknown(3))),
        (M, Some(TypeFault::Main(1))),
        (P, None),
        (S, None),
    ];
    for (text, fault) in rows {
        assert!(rt; alone(rt.alloc(), text) == fault);
    }
    Ok(())
}

#[test]
fn texts_are_checked_by_themselves(rt: HostRuntime) -> Result<(), Fail> {
    let rows: [(&[u8], Option<CompileFault>); 4] = [
        (A, None),
        (D, Some(CompileFault::Refused(Refusal::Unknown(3)))),
        (M, Some(CompileFault::Refused(Refusal::Main(1)))),
        (
            b"int f(int x) {\nreturn x }",
            Some(CompileFault::Refused(Refusal::Syntax(2))),
        ),
    ];
    for (text, fault) in rows {
        assert!(rt; refused(rt.alloc(), text) == fault);
    }
    Ok(())
}

#[test]
fn functions_are_found(rt: HostRuntime) -> Result<(), Fail> {
    let rows: [(&[u8], (usize, u32)); 3] = [
        (A, (1, 0)),
        (S, (0, 0)),
        (b"int putchar(int c); int f(void) { return 0; }", (1, 1)),
    ];
    for (text, found) in rows {
        assert!(rt; functions_of(rt.alloc(), text) == Some(found));
    }
    Ok(())
}

#[test]
fn units_have_no_stubs(rt: HostRuntime) -> Result<(), Fail> {
    let rows: [(&[u8], usize); 3] = [(A, 2), (B, 1), (S, 3)];
    for (text, items) in rows {
        assert!(rt; items_of(rt.alloc(), text) == Some(items));
    }
    Ok(())
}

#[test]
fn files_are_linked(rt: HostRuntime) -> Result<(), Fail> {
    let rows: [(&[&[u8]], Result<usize, LinkFault>); 10] = [
        (&[A, B], Ok(2)),
        (&[A], Err(LinkFault::Refused(LinkRefusal::Missing(1, 1)))),
        (&[B], Err(LinkFault::Refused(LinkRefusal::Entry))),
        (
            &[A, B, B],
            Err(LinkFault::Refused(LinkRefusal::Double(3, 1))),
        ),
        (
            &[A, C],
            Err(LinkFault::Refused(LinkRefusal::Disagree(2, 1))),
        ),
        (&[P, Q], Err(LinkFault::Refused(LinkRefusal::Large))),
        (
            &[S, T],
            Err(LinkFault::Refused(LinkRefusal::Disagree(2, 1))),
        ),
        (
            &[S, U],
            Err(LinkFault::Refused(LinkRefusal::Disagree(2, 1))),
        ),
        (&[S, S], Err(LinkFault::Refused(LinkRefusal::Double(2, 1)))),
        (&[A, B, T], Ok(2)),
    ];
    for (texts, answer) in rows {
        assert!(rt; together(rt.alloc(), texts, answer));
    }
    Ok(())
}

#[test]
fn laws_of_linking(_rt: HostRuntime) {
    a_joined_program_is_not_large();
    files_have_a_program_together();
    joined_files_keep_limits();
    stubs_keep_limits();
    a_text_is_limited();
    examples_compute();
    texts_come_to_one_thing();
    linked_programs_are_well_typed();
    linked_programs_delete_in_place();
}
