// The program that is made from a number.
ghost use Rattle.std.specs.Prelude.{◌≡◌, ◌++◌, IfOk, OnOk};
ghost use Rattle.rc_gen.specs.Template.{text_of};
ghost use Rattle.rc_gen.specs.Program.{calls, form, functions, generated, main, prelude, program};

use crate::template::Numbers;
use crate::text::Text;
use rc_base::NoMemory;
use std::alloc::Global;

const FUNCTIONS: u32 = 640;

const PRELUDE: [&[u8]; 5] = [
    b"struct node { int v; struct node *sameregion next; };",
    b"struct leaf { struct node *parentptr up; };",
    b"struct node *keep;",
    b"int sum(struct node *p) { int s = 0; while (p) { s += p->v; p = p->next; } return s; }",
    b"struct node *push(region r, struct node *p, int v) { struct node *q = ralloc(r, struct node); q->v = v; q->next = p; return q; }",
];

/// A list that is made cell by cell.
const FORM_0: &[u8] =
    b"int f@I(int x) deletes { region r = newregion(); struct node *p = NULL; struct node *q; int i; for (i = 0; i < @A; i++) { q = ralloc(r, struct node); q->v = @W; q->next = p; p = q; } x += sum(p); deleteregion(r); return x; }";

/// A list that `push` makes.
const FORM_1: &[u8] =
    b"int f@I(int x) deletes { region r = newregion(); struct node *p = NULL; int i; for (i = 0; i < @A; i++) p = push(r, p, @W); x += sum(p); deleteregion(r); return x; }";

/// A list that is seen through a parent pointer from a subregion.
const FORM_2: &[u8] =
    b"int f@I(int x) deletes { region r = newregion(); region c = newsubregion(r); struct node *p = NULL; struct leaf *m; int i; for (i = 0; i < @A; i++) p = push(r, p, @W); m = ralloc(c, struct leaf); m->up = p; x += sum(m->up); deleteregion(c); deleteregion(r); return x; }";

/// A list that a global holds for a while.
const FORM_3: &[u8] =
    b"int f@I(int x) deletes { region r = newregion(); struct node *p = NULL; struct node *q; int i; for (i = 0; i < @A; i++) p = push(r, p, @W); keep = p; q = ralloc(r, struct node); q->next = keep; x += sum(q); keep = NULL; deleteregion(r); return x; }";

const MAIN_BEGINS: &[u8] = b"int main(void) deletes { int t = 0;";

const CALL: &[u8] = b"t = f@I(t);";

const MAIN_ENDS: &[u8] = b"return t; }";

/// The text of the program made from `n`, about 150 KB.
pub fn generate(alloc: Global, n: u64) -> Result<Vec<u8>, NoMemory>
    ensures { IfOk result (λ text. text.items ≡ generated n) }
{
    program(alloc, n, FUNCTIONS)
}

/// The text of a program of so many functions.
#[tactic(auto, using(crate::proofs::Lines::in_parts), unfolding(crate::specs::Program::program))]
fn program(alloc: Global, n: u64, count: u32) -> Result<Vec<u8>, NoMemory>
    ensures { IfOk result (λ text. text.items ≡ program n count) }
{
    let mut text = Text::new(alloc);
    prelude(&mut text)?;
    functions(&mut text, n, count)?;
    main(&mut text, n, count)?;
    Ok(text.into_bytes())
}

#[tactic(auto, unfolding(crate::specs::Program::prelude))]
fn prelude(text: &mut Text) -> Result<(), NoMemory>
    ensures { OnOk result (text.new ≡ text.old ++ text_of prelude) }
{
    text.lines(&PRELUDE)
}

#[tactic(auto, using(crate::proofs::Lines::one_line_more))]
fn functions(text: &mut Text, n: u64, count: u32) -> Result<(), NoMemory>
    ensures { OnOk result (text.new ≡ text.old ++ text_of (functions n count)) }
{
    for index in 0..count {
        text.filled_line(form(index), &Numbers::of(n, index))?;
    }
    Ok(())
}

#[tactic(auto, using(crate::proofs::Lines::form_at), unfolding(crate::specs::Program::forms))]
fn form(index: u32) -> &'static [u8]
    ensures { result.now ≡ form index }
{
    match index % 4 {
        0 => FORM_0,
        1 => FORM_1,
        2 => FORM_2,
        _ => FORM_3,
    }
}

fn main(text: &mut Text, n: u64, count: u32) -> Result<(), NoMemory>
    ensures { OnOk result (text.new ≡ text.old ++ text_of (main n count)) }
{
    text.line(MAIN_BEGINS)?;
    calls(text, n, count)?;
    text.line(MAIN_ENDS)?;
    Ok(())
}

#[tactic(auto, using(crate::proofs::Lines::one_line_more), unfolding(crate::specs::Program::call))]
fn calls(text: &mut Text, n: u64, count: u32) -> Result<(), NoMemory>
    ensures { OnOk result (text.new ≡ text.old ++ text_of (calls n count)) }
{
    for index in 0..count {
        text.filled_line(CALL, &Numbers::of(n, index))?;
    }
    Ok(())
}
