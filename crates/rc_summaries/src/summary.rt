// The summary of a run.
ghost use Rattle.std.specs.Prelude.{◌≡◌, ◌++◌, IfOk, OnOk, codes};
ghost use Rattle.rc_summaries.specs.Summary.{checks_text, end_text, functions_text, size_text, summary_text};

use rc_answers::trap_name;
use rc_base::{End, NoMemory};
use rc_text::Text;
use std::alloc::Global;

/// What is said of the run of a made program.
#[derive(Clone, Copy, Debug, PartialEq, Eq)]
pub struct Summary {
    /// The number from which the program was made.
    pub number: u64,
    /// How many functions it has.
    pub functions: u64,
    /// How many of its stores are to annotated cells, each with its check.
    pub checks: u64,
    /// How many of these checks are removed.
    pub removed: u64,
    /// How the run ended.
    pub end: End,
}

fn append_end(text: &mut Text, end: End) -> Result<(), NoMemory>
    ensures { OnOk result (text.new ≡ text.old ++ end_text end) }
{
    match end {
        End::Exit(value) => {
            text.append(b"exit ")?;
            text.append_signed(value)
        }
        End::Trapped(trap, _) => {
            text.append(b"trap ")?;
            text.append(trap_name(trap))
        }
        End::Spent => text.append(b"spent"),
    }
}

/// Appends how the run ended, and the line feed.
fn append_last(text: &mut Text, end: End) -> Result<(), NoMemory>
    ensures { OnOk result (text.new ≡ text.old ++ (end_text end ++ codes "\n")) }
{
    append_end(text, end)?;
    text.append(b"\n")
}

/// Appends how many functions there are.
#[tactic(auto, unfolding(crate::specs::Summary::functions_text))]
fn append_functions(text: &mut Text, summary: &Summary) -> Result<(), NoMemory>
    ensures { OnOk result (text.new ≡ text.old ++ functions_text summary.now) }
{
    text.append_number(summary.functions)?;
    text.append(b" functions, ")
}

/// Appends the number, and the size of its program.
#[tactic(auto, unfolding(crate::specs::Summary::size_text))]
fn append_size(text: &mut Text, summary: &Summary) -> Result<(), NoMemory>
    ensures { OnOk result (text.new ≡ text.old ++ size_text summary.now) }
{
    text.append_number(summary.number)?;
    text.append(b": ")?;
    append_functions(text, summary)
}

/// Appends what is said of the checks.
#[tactic(auto, unfolding(crate::specs::Summary::checks_text))]
fn append_checks(text: &mut Text, summary: &Summary) -> Result<(), NoMemory>
    ensures { OnOk result (text.new ≡ text.old ++ checks_text summary.now) }
{
    text.append_number(summary.checks)?;
    text.append(b" checks, ")?;
    text.append_number(summary.removed)?;
    text.append(b" removed, ")
}

/// Appends the numbers.
fn append_numbers(text: &mut Text, summary: &Summary) -> Result<(), NoMemory>
    ensures { OnOk result (text.new ≡ text.old ++ (size_text summary.now ++ checks_text summary.now)) }
{
    append_size(text, summary)?;
    append_checks(text, summary)
}

/// The text of a summary: one line.
///
/// # Errors
///
/// Out of memory.
pub fn summary_text(alloc: Global, summary: &Summary) -> Result<Vec<u8>, NoMemory>
    ensures { IfOk result (λ text. text.items ≡ summary_text summary.now) }
{
    let mut text = Text::new(alloc);
    text.append(b"soak ")?;
    append_numbers(&mut text, summary)?;
    append_last(&mut text, summary.end)?;
    Ok(text.into_bytes())
}
