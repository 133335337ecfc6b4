// The text of a program of tasks, as the file's text and three lines behind it.

ghost use Rattle.std.specs.Prelude.{◌≡◌, ◌≤◌, ◌<◌, ◌++◌, IfOk, OnOk};
ghost use Rattle.rc_task_text.specs.TaskText.{
  AreChoices,
  call_if_chosen,
  call_text,
  calls_text,
  main_line,
  task_lines,
  task_text_of,
  yield_line,
};

use rc_base::NoMemory;
use rc_text::Text;
use std::alloc::Global;

const COUNTER: &[u8] = b"\nunsigned rc_at;\n";

/// The text, with the three lines behind it that run its tasks by these choices. The text is copied
/// once, into memory of the length of all.
///
/// # Errors
///
/// Out of memory.
pub fn task_text(alloc: Global, text: &[u8], choices: &str) -> Result<Vec<u8>, NoMemory>
    requires { AreChoices choices.now }
    ensures { IfOk result (λ all. all.items ≡ task_text_of text.now choices.now) }
{
    let lines = task_lines(alloc, choices.as_bytes())?;
    let mut all = Vec::with_capacity(alloc, text.len() + lines.len())?;
    all.extend_from_slice(text)?;
    all.extend_from_slice(&lines)?;
    Ok(all)
}

/// The line feed and the three lines.
fn task_lines(alloc: Global, choices: &[u8]) -> Result<Vec<u8>, NoMemory>
    ensures { IfOk result (λ lines. lines.items ≡ task_lines choices.now) }
{
    let mut lines = Text::new(alloc);
    lines.append(COUNTER)?;
    append_yield(&mut lines, choices)?;
    append_main(&mut lines, choices.len() as u64)?;
    Ok(lines.into_bytes())
}

/// Appends the line of `yield`, which takes the next choice.
fn append_yield(lines: &mut Text, choices: &[u8]) -> Result<(), NoMemory>
    ensures { OnOk result (lines.new ≡ lines.old ++ yield_line choices.now) }
{
    lines.append(b"void yield(void) deletes { char *s = \"")?;
    lines.append(choices)?;
    lines.append(b"\"; char c; if (rc_at < ")?;
    lines.append_number(choices.len() as u64)?;
    lines.append(b") { c = s[rc_at]; rc_at++;")?;
    append_calls(lines, choices)?;
    lines.append(b" } }\n")
}

/// Appends the line of `main`, which yields until all choices are taken.
fn append_main(lines: &mut Text, count: u64) -> Result<(), NoMemory>
    ensures { OnOk result (lines.new ≡ lines.old ++ main_line count) }
{
    lines.append(b"int main(void) deletes { start(); while (rc_at < ")?;
    lines.append_number(count)?;
    lines.append(b") yield(); return 0; }\n")
}

/// Appends the calls of the tasks that are chosen, in the order of their numbers.
#[tactic(auto, using(crate::proofs::Pieces::one_call_more, crate::proofs::Pieces::all_calls))]
fn append_calls(lines: &mut Text, choices: &[u8]) -> Result<(), NoMemory>
    ensures { OnOk result (lines.new ≡ lines.old ++ calls_text choices.now) }
{
    for task in 0..10u8 {
        append_call_if_chosen(lines, choices, task)?;
    }
    Ok(())
}

fn append_call_if_chosen(lines: &mut Text, choices: &[u8], task: u8) -> Result<(), NoMemory>
    requires { task < 10 }
    ensures { OnOk result (lines.new ≡ lines.old ++ call_if_chosen choices.now task) }
{
    if choices.contains(&(b'0' + task)) {
        append_call(lines, task)
    } else {
        Ok(())
    }
}

fn append_call(lines: &mut Text, task: u8) -> Result<(), NoMemory>
    ensures { OnOk result (lines.new ≡ lines.old ++ call_text task) }
{
    lines.append(b" if (c == '")?;
    lines.append_number(task as u64)?;
    lines.append(b"') task_")?;
    lines.append_number(task as u64)?;
    lines.append(b"();")
}
