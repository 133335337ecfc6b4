// A report as a text.
ghost use Rattle.std.specs.Prelude.{◌≡◌, ◌++◌, ◌+◌, IfOk, OnOk, length, flat_map, take};
ghost use Rattle.rc_reports.specs.Reports.{annotation_name, entry_text, removed_count, report_text, total_text, verdict};

use crate::entry::Entry;
use rc_base::NoMemory;
use rc_core::ty::Note;
use rc_text::Text;
use std::alloc::Global;

/// The name of an annotation, as it is written in a program.
fn annotation_name(note: Note) -> &'static [u8]
    ensures { result.now ≡ annotation_name note }
{
    match note {
        Note::Plain => b"plain",
        Note::SameRegion => b"sameregion",
        Note::ParentPtr => b"parentptr",
        Note::Traditional => b"traditional",
    }
}

fn verdict(removed: bool) -> &'static [u8]
    ensures { result.now ≡ verdict removed }
{
    if removed { b"removed" } else { b"kept" }
}

/// Appends the line of a store.
fn append_entry(text: &mut Text, entry: Entry) -> Result<(), NoMemory>
    ensures { OnOk result (text.new ≡ text.old ++ entry_text entry) }
{
    text.append_number(u64::from(entry.line))?;
    text.append(b" ")?;
    text.append(annotation_name(entry.note))?;
    text.append(b" ")?;
    text.append(verdict(entry.removed))?;
    text.append(b"\n")
}

/// How many checks are removed.
pub fn removed_count(entries: &[Entry]) -> u64
    ensures { result ≡ removed_count entries.now }
{
    entries.iter().filter(|entry| entry.removed).count() as u64
}

/// Appends the last line.
fn append_total(text: &mut Text, entries: &[Entry]) -> Result<(), NoMemory>
    ensures { OnOk result (text.new ≡ text.old ++ total_text entries.now) }
{
    text.append(b"total ")?;
    text.append_number(entries.len() as u64)?;
    text.append(b" removed ")?;
    text.append_number(removed_count(entries))?;
    text.append(b"\n")
}

/// The text of a report.
///
/// # Errors
///
/// Out of memory: it takes as much as the text is long.
pub fn report_text(alloc: Global, entries: &[Entry]) -> Result<Vec<u8>, NoMemory>
    ensures { IfOk result (λ text. text.items ≡ report_text entries.now) }
{
    let mut text = Text::new(alloc);
    for entry in entries {
        append_entry(&mut text, *entry)?;
    }
    append_total(&mut text, entries)?;
    Ok(text.into_bytes())
}
