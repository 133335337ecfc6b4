// Programs that are made from a number.
use rc_gen::generate;
use std::alloc::Global;
use std::test::Fail;

fn is_line(text: &[u8], place: usize, expected: &[u8]) -> bool {
    match text.split(|b| *b == b'\n').nth(place) {
        Some(line) => line == expected,
        None => false,
    }
}

fn count_lines(text: &[u8]) -> usize {
    text.iter().filter(|b| **b == b'\n').count()
}

/// Whether the program that is made from a number has 1,287 lines, and these at their places.
fn has_lines(alloc: Global, number: u64, lines: &[(usize, &[u8])]) -> Result<bool, Fail> {
    let text = generate(alloc, number)?;
    for (place, line) in lines {
        if !is_line(&text, *place, line) {
            return Ok(false);
        }
    }
    Ok(count_lines(&text) == 1287)
}

#[test]
fn programs_are_made(rt: HostRuntime) -> Result<(), Fail> {
    let of_seven: &[(usize, &[u8])] = &[
        (0, b"struct node { int v; struct node *sameregion next; };"),
        (
            5,
            b"int f0(int x) deletes { region r = newregion(); struct node *p = NULL; struct node *q; int i; for (i = 0; i < 7; i++) { q = ralloc(r, struct node); q->v = 1; q->next = p; p = q; } x += sum(p); deleteregion(r); return x; }",
        ),
        (
            8,
            b"int f3(int x) deletes { region r = newregion(); struct node *p = NULL; struct node *q; int i; for (i = 0; i < 10; i++) p = push(r, p, 1); keep = p; q = ralloc(r, struct node); q->next = keep; x += sum(q); keep = NULL; deleteregion(r); return x; }",
        ),
        (645, b"int main(void) deletes { int t = 0;"),
        (1285, b"t = f639(t);"),
        (1286, b"return t; }"),
    ];
    assert!(rt; has_lines(rt.alloc(), 7, of_seven)?);
    let of_the_greatest: &[(usize, &[u8])] = &[
        (
            5,
            b"int f0(int x) deletes { region r = newregion(); struct node *p = NULL; struct node *q; int i; for (i = 0; i < 63; i++) { q = ralloc(r, struct node); q->v = 2; q->next = p; p = q; } x += sum(p); deleteregion(r); return x; }",
        ),
        (
            8,
            b"int f3(int x) deletes { region r = newregion(); struct node *p = NULL; struct node *q; int i; for (i = 0; i < 2; i++) p = push(r, p, 2); keep = p; q = ralloc(r, struct node); q->next = keep; x += sum(q); keep = NULL; deleteregion(r); return x; }",
        ),
    ];
    assert!(rt; has_lines(rt.alloc(), u64::MAX, of_the_greatest)?);
    Ok(())
}
