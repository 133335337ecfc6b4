// What stands behind the text of a file: three lines, byte by byte.
use rc_task_text::task_text;
use std::test::Fail;

/// Two tasks over one region, in six lines.
const TWO_TASKS: &[u8] =
    b"region r;\nstruct n { int v; };\nvoid yield(void) deletes;\nvoid start(void) { r = newregion(); }\nvoid task_0(void) deletes { struct n *p = ralloc(r, struct n); p->v = 7; yield(); putchar('0' + p->v); }\nvoid task_1(void) deletes { region q = r; r = NULL; deleteregion(q); }\n";

/// The same behind an empty line, with the lines that choose both tasks, the first of them twice.
const WITH_LINES: &[u8] =
    b"region r;\nstruct n { int v; };\nvoid yield(void) deletes;\nvoid start(void) { r = newregion(); }\nvoid task_0(void) deletes { struct n *p = ralloc(r, struct n); p->v = 7; yield(); putchar('0' + p->v); }\nvoid task_1(void) deletes { region q = r; r = NULL; deleteregion(q); }\n\nunsigned rc_at;\nvoid yield(void) deletes { char *s = \"001\"; char c; if (rc_at < 3) { c = s[rc_at]; rc_at++; if (c == '0') task_0(); if (c == '1') task_1(); } }\nint main(void) deletes { start(); while (rc_at < 3) yield(); return 0; }\n";

/// The lines alone, with every task, the last one first.
const EVERY_TASK: &[u8] =
    b"\nunsigned rc_at;\nvoid yield(void) deletes { char *s = \"9876543210\"; char c; if (rc_at < 10) { c = s[rc_at]; rc_at++; if (c == '0') task_0(); if (c == '1') task_1(); if (c == '2') task_2(); if (c == '3') task_3(); if (c == '4') task_4(); if (c == '5') task_5(); if (c == '6') task_6(); if (c == '7') task_7(); if (c == '8') task_8(); if (c == '9') task_9(); } }\nint main(void) deletes { start(); while (rc_at < 10) yield(); return 0; }\n";

/// What stands before the choices, behind an empty text.
const BEFORE_CHOICES: &[u8] = b"\nunsigned rc_at;\nvoid yield(void) deletes { char *s = \"";

/// The most choices that a list may have: 1,000.
const MOST_CHOICES: &str =
    "0123456789012345678901234567890123456789012345678901234567890123456789012345678901234567890123456789012345678901234567890123456789012345678901234567890123456789012345678901234567890123456789012345678901234567890123456789012345678901234567890123456789012345678901234567890123456789012345678901234567890123456789012345678901234567890123456789012345678901234567890123456789012345678901234567890123456789012345678901234567890123456789012345678901234567890123456789012345678901234567890123456789012345678901234567890123456789012345678901234567890123456789012345678901234567890123456789012345678901234567890123456789012345678901234567890123456789012345678901234567890123456789012345678901234567890123456789012345678901234567890123456789012345678901234567890123456789012345678901234567890123456789012345678901234567890123456789012345678901234567890123456789012345678901234567890123456789012345678901234567890123456789012345678901234567890123456789012345678901234567890123456789012345678901234567890123456789";

/// What stands behind so many choices of all ten tasks: the end of the line of `yield`, and the line of `main`.
const BEHIND_MOST: &[u8] =
    b"\"; char c; if (rc_at < 1000) { c = s[rc_at]; rc_at++; if (c == '0') task_0(); if (c == '1') task_1(); if (c == '2') task_2(); if (c == '3') task_3(); if (c == '4') task_4(); if (c == '5') task_5(); if (c == '6') task_6(); if (c == '7') task_7(); if (c == '8') task_8(); if (c == '9') task_9(); } }\nint main(void) deletes { start(); while (rc_at < 1000) yield(); return 0; }\n";

/// The lines for one choice, behind a text that doesn't end with a line feed.
const ONE_CHOICE: &[u8] =
    b"int x;\nunsigned rc_at;\nvoid yield(void) deletes { char *s = \"5\"; char c; if (rc_at < 1) { c = s[rc_at]; rc_at++; if (c == '5') task_5(); } }\nint main(void) deletes { start(); while (rc_at < 1) yield(); return 0; }\n";

#[test]
fn lines_stand_behind_a_text(rt: HostRuntime) -> Result<(), Fail> {
    assert!(rt; task_text(rt.alloc(), TWO_TASKS, "001")?.as_slice() == WITH_LINES);
    assert!(rt; task_text(rt.alloc(), b"", "9876543210")?.as_slice() == EVERY_TASK);
    Ok(())
}

#[test]
fn one_choice_is_a_list(rt: HostRuntime) -> Result<(), Fail> {
    assert!(rt; task_text(rt.alloc(), b"int x;", "5")?.as_slice() == ONE_CHOICE);
    Ok(())
}

#[test]
fn a_thousand_choices_are_a_list(rt: HostRuntime) -> Result<(), Fail> {
    let mut wanted = Vec::new(rt.alloc());
    wanted.extend_from_slice(BEFORE_CHOICES)?;
    wanted.extend_from_slice(MOST_CHOICES.as_bytes())?;
    wanted.extend_from_slice(BEHIND_MOST)?;
    assert!(rt; task_text(rt.alloc(), b"", MOST_CHOICES)?.as_slice() == wanted.as_slice());
    Ok(())
}
