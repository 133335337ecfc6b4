// A text that grows at its end.
ghost use Rattle.std.specs.Prelude.{◌≡◌, ◌++◌, [], ◌∷◌, codes, OnOk};
ghost use Rattle.std.specs.Fmt.{decimal, signed_decimal};

use itoa::Buffer;
use rc_base::NoMemory;
use std::alloc::Global;
use std::marker::Model;

/// A text, which contracts see as its bytes. Where memory is refused it may have taken a part of what
/// was to be appended.
#[derive(Drop)]
pub struct Text {
    bytes: Vec<u8>,
}

impl Model for Text {
    ghost use Rattle.std.specs.Prelude.{ℕ, List};

    ghost Value = { List ℕ };

    ghost view = { λ t. t.bytes.items };
}

impl Text {
    pub fn new(alloc: Global) -> Text
        ensures { result ≡ [] }
    {
        Text {
            bytes: Vec::new(alloc),
        }
    }

    pub fn into_bytes(self) -> Vec<u8>
        ensures { result.items ≡ self }
    {
        self.bytes
    }

    /// Appends these bytes.
    pub fn append(&mut self, bytes: &[u8]) -> Result<(), NoMemory>
        ensures { OnOk result (self.new ≡ self.old ++ bytes.now) }
    {
        self.bytes.extend_from_slice(bytes)?;
        Ok(())
    }

    /// Appends a number in decimal.
    pub fn append_number(&mut self, number: u64) -> Result<(), NoMemory>
        ensures { OnOk result (self.new ≡ self.old ++ decimal number) }
    {
        let mut buffer = Buffer::new();
        self.append(buffer.format(number).as_bytes())
    }

    /// Appends a number in decimal, with its sign where it is below 0.
    pub fn append_signed(&mut self, number: i32) -> Result<(), NoMemory>
        ensures { OnOk result (self.new ≡ self.old ++ signed_decimal number) }
    {
        let mut buffer = Buffer::new();
        self.append(buffer.format(number).as_bytes())
    }

    /// Appends a number, and a blank behind it.
    pub fn append_with_blank(&mut self, number: u64) -> Result<(), NoMemory>
        ensures { OnOk result (self.new ≡ self.old ++ (decimal number ++ codes " ")) }
    {
        self.append_number(number)?;
        self.append(b" ")
    }

    /// Appends a blank, and a number behind it.
    pub fn append_behind_blank(&mut self, number: u64) -> Result<(), NoMemory>
        ensures { OnOk result (self.new ≡ self.old ++ (codes " " ++ decimal number)) }
    {
        self.append(b" ")?;
        self.append_number(number)
    }
}
