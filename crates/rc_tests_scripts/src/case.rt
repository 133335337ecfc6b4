// Scripts that are written line by line, with what they answer.
use crate::running::Script;
use rc_base::NoMemory;
use std::alloc::Global;
use std::fmt::Write;

/// A script and what it answers.
#[derive(Drop)]
pub(crate) struct Case {
    text: String,
    output: String,
}

fn write_number(text: &mut String, number: u32) -> Result<(), NoMemory> {
    Ok(write!(text, " {number}")?)
}

impl Case {
    /// A script without lines.
    pub(crate) fn new(alloc: Global) -> Case {
        Case {
            text: String::new(alloc),
            output: String::new(alloc),
        }
    }

    /// The script, within the largest limits.
    pub(crate) fn script(&self) -> Script<'_> {
        Script {
            regions: u32::MAX,
            blocks: u32::MAX,
            text: self.text.as_bytes(),
        }
    }

    pub(crate) fn output(&self) -> &[u8] {
        self.output.as_bytes()
    }

    /// The verb of a line.
    pub(crate) fn words(&mut self, words: &str) -> Result<(), NoMemory> {
        Ok(self.text.push_str(words)?)
    }

    /// A number of a line, behind a space.
    pub(crate) fn number(&mut self, number: u32) -> Result<(), NoMemory> {
        write_number(&mut self.text, number)
    }

    /// The end of a line, and what it answers.
    pub(crate) fn end(&mut self, answer: &str) -> Result<(), NoMemory> {
        self.text.push_str("\n")?;
        self.output.push_str(answer)?;
        Ok(self.output.push_str("\n")?)
    }

    /// The end of a line, and what it answers with a number.
    pub(crate) fn end_numbered(&mut self, answer: &str, number: u32) -> Result<(), NoMemory> {
        self.output.push_str(answer)?;
        write_number(&mut self.output, number)?;
        self.end("")
    }

    /// A line with one number, and what it answers.
    pub(crate) fn line(&mut self, verb: &str, number: u32, answer: &str) -> Result<(), NoMemory> {
        self.words(verb)?;
        self.number(number)?;
        self.end(answer)
    }

    /// A new region below another.
    pub(crate) fn region(&mut self, parent: u32, number: u32) -> Result<(), NoMemory> {
        self.words("new")?;
        self.number(parent)?;
        self.end_numbered("region", number)
    }

    /// A new object of one cell.
    pub(crate) fn cell(&mut self, region: u32, number: u32) -> Result<(), NoMemory> {
        self.words("cell")?;
        self.number(region)?;
        self.number(1)?;
        self.end_numbered("object", number)
    }

    /// The one cell of an object comes to name a region.
    pub(crate) fn link(&mut self, region: u32, object: u32, target: u32) -> Result<(), NoMemory> {
        self.words("link")?;
        self.number(region)?;
        self.number(object)?;
        self.number(0)?;
        self.number(target)?;
        self.end("ok")
    }

    /// The regions from 1 up to this one are to be deleted.
    pub(crate) fn drop_up_to(&mut self, last: u32, answer: &str) -> Result<(), NoMemory> {
        self.words("drop")?;
        for before in 0..last {
            self.number(before.wrapping_add(1))?;
        }
        self.end(answer)
    }
}
