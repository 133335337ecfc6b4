// A text that grows at its end.
ghost use Rattle.std.specs.Prelude.{◌≡◌, ◌≤◌, ◌++◌, [], ◌∷◌, decimal, length, map, IfOk, OnOk};
ghost use Rattle.std.specs.Str.{byte};
ghost use Rattle.rc_gen.specs.Template.{filled, filled_from_letter, line_of, text_of};

use crate::template::Numbers;
use rc_base::NoMemory;
use std::alloc::Global;
use std::marker::Model;

/// A text, which contracts see as its bytes. Where memory is refused it may have taken a part of
/// what was to be appended.
#[derive(Drop)]
pub(crate) struct Text {
    bytes: Vec<u8>,
}

impl Model for Text {
    ghost use Rattle.std.specs.Prelude.{ℕ, List};

    ghost Value = { List ℕ };

    ghost view = { λ t. t.bytes.items };
}

impl Text {
    pub(crate) fn new(alloc: Global) -> Text
        ensures { result ≡ [] }
    {
        Text {
            bytes: Vec::new(alloc),
        }
    }

    pub(crate) fn into_bytes(self) -> Vec<u8>
        ensures { result.items ≡ self }
    {
        self.bytes
    }

    /// Appends the lines, each with its line feed.
    pub(crate) fn lines(&mut self, lines: &[&[u8]]) -> Result<(), NoMemory>
        ensures { OnOk result (self.new ≡ self.old ++ text_of (map (λ line. line.now) lines.now)) }
    {
        for line in lines {
            self.line(line)?;
        }
        Ok(())
    }

    /// Appends a line with its line feed.
    pub(crate) fn line(&mut self, line: &[u8]) -> Result<(), NoMemory>
        ensures { OnOk result (self.new ≡ self.old ++ line_of line.now) }
    {
        self.append(line)?;
        self.end_line()
    }

    /// Appends a line made from a template, with its line feed.
    pub(crate) fn filled_line(&mut self, template: &[u8], numbers: &Numbers) -> Result<(), NoMemory>
        ensures { OnOk result (self.new ≡ self.old ++ line_of (filled numbers.now template.now)) }
    {
        self.fill(template, numbers)?;
        self.end_line()
    }

    fn end_line(&mut self) -> Result<(), NoMemory>
        ensures { OnOk result (self.new ≡ self.old ++ byte "\n" ∷ []) }
    {
        self.push(b'\n')
    }

    /// Appends what a template says.
    fn fill(&mut self, template: &[u8], numbers: &Numbers) -> Result<(), NoMemory>
        ensures { OnOk result (self.new ≡ self.old ++ filled numbers.now template.now) }
    {
        let mut rest = template;
        while let [byte, after @ ..] = rest {
            if *byte == b'@' {
                rest = self.fill_hole(after, numbers)?;
            } else {
                self.push(*byte)?;
                rest = after;
            }
        }
        Ok(())
    }

    /// Appends the number that the first letter stands for, and answers what follows the letter.
    fn fill_hole<'a>(&mut self, template: &'a [u8], numbers: &Numbers) -> Result<&'a [u8], NoMemory>
        ensures filled { IfOk result (λ rest. self.new ++ filled numbers.now rest.now ≡ self.old ++ filled_from_letter numbers.now template.now) }
        ensures shorter { IfOk result (λ rest. length rest.now ≤ length template.now) }
    {
        let [letter, rest @ ..] = template else {
            return Ok(template);
        };
        self.append_decimal(numbers.at(*letter))?;
        Ok(rest)
    }

    fn append_decimal(&mut self, number: u64) -> Result<(), NoMemory>
        ensures { OnOk result (self.new ≡ self.old ++ decimal number) }
    {
        let digits = number.to_string(*self.bytes.allocator())?;
        self.append(digits.as_bytes())
    }

    fn append(&mut self, bytes: &[u8]) -> Result<(), NoMemory>
        ensures { OnOk result (self.new ≡ self.old ++ bytes.now) }
    {
        Ok(self.bytes.extend_from_slice(bytes)?)
    }

    fn push(&mut self, byte: u8) -> Result<(), NoMemory>
        ensures { OnOk result (self.new ≡ self.old ++ byte ∷ []) }
    {
        Ok(self.bytes.push(byte)?)
    }
}
