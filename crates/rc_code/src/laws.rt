// Laws of the tables, and of marks.
ghost use Rattle.std.specs.Prelude.{◌≡◌, ℕ, true, false, List, Some};
ghost use Rattle.rc_code.specs.Kinds.{cell_tag, cell_tagged, with_no_type, storage_tag, storage_tagged, with_no_pointee};
ghost use Rattle.rc_code.specs.Table.{number_of, numbered, operands_named, AreOperands};
ghost use Rattle.rc_code.specs.Image.{opcode_of, operands_of};
ghost use Rattle.rc_code.specs.Faithful.{MarkIsRight, stored_to, stored_value};
ghost use Rattle.rc_code.specs.Running.{Reading};
ghost use Rattle.rc_code.specs.Steps.{State};
ghost use Rattle.rc_code.specs.StoreModel.{Held, stored_in};
ghost use Rattle.rc_code.specs.declared.instruction.Instruction.{Instruction};
ghost use Rattle.rc_code.specs.declared.kind.Cell.{Cell};
ghost use Rattle.rc_code.specs.declared.kind.Storage.{Storage};
ghost use Rattle.rc_code.specs.declared.opcode.Opcode.{Opcode};

/// A row has one number, and a number one row.
pub fn numbers_are_those_of_the_table()
    ensures row { (o : Opcode) → numbered (number_of o) ≡ Some o }
    ensures number { (n : ℕ) (o : Opcode) → numbered n ≡ Some o → number_of o ≡ n }
{}

/// An instruction's operands are what its row says, its row and its operands make it up, and numbers
/// that are what a row says are operands of an instruction of that row.
pub fn operands_are_those_of_the_table()
    ensures row { (i : Instruction) → AreOperands (operands_named (opcode_of i)) (operands_of i) }
    ensures only { (i j : Instruction) → opcode_of i ≡ opcode_of j → operands_of i ≡ operands_of j → i ≡ j }
    ensures all { (o : Opcode) (ns : List ℕ) → AreOperands (operands_named o) ns → (i : Instruction) × (opcode_of i ≡ o) × (operands_of i ≡ ns) }
{}

/// A cell has one tag, and a tag one cell, its type left out.
pub fn tags_are_those_of_cells()
    ensures cell { (c : Cell) → cell_tagged (cell_tag c) ≡ Some (with_no_type c) }
    ensures tag { (n : ℕ) (c : Cell) → cell_tagged n ≡ Some c → cell_tag c ≡ n }
{}

/// What a local holds has one tag, and a tag one such thing, its type left out.
pub fn tags_are_those_of_locals()
    ensures local { (s : Storage) → storage_tagged (storage_tag s) ≡ Some (with_no_pointee s) }
    ensures tag { (n : ℕ) (s : Storage) → storage_tagged n ≡ Some s → storage_tag s ≡ n }
{}

/// Where a mark is right a store does the same with its check and without it; and where it does the same
/// with its check and without it, its mark is right.
pub fn marks_are_right_where_checks_pass()
    ensures same { (image : Reading) (path : ℕ) (s : State Held) (w : Held) → MarkIsRight image path s w → (line : ℕ) → stored_in false line (stored_to image path s.stack) (stored_value image path s.stack) w ≡ stored_in true line (stored_to image path s.stack) (stored_value image path s.stack) w }
    ensures right { (image : Reading) (path : ℕ) (s : State Held) (w : Held) (line : ℕ) → stored_in false line (stored_to image path s.stack) (stored_value image path s.stack) w ≡ stored_in true line (stored_to image path s.stack) (stored_value image path s.stack) w → MarkIsRight image path s w }
{}
