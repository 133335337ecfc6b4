// The table of instructions, and the tags of cells and locals.
use rc_code::{Cell, Opcode, Storage};

const NAMES: [&[u8]; 47] = [
    b"INT",
    b"UNS",
    b"NULLR",
    b"NULLP",
    b"GLOBAL",
    b"GET",
    b"SET",
    b"ADD",
    b"SUB",
    b"MUL",
    b"DIV",
    b"REM",
    b"AND",
    b"OR",
    b"XOR",
    b"SHL",
    b"SHR",
    b"NEG",
    b"NOT",
    b"EQ",
    b"LT",
    b"LE",
    b"EQR",
    b"EQP",
    b"ZERO",
    b"NILR",
    b"NILP",
    b"TOI",
    b"TOU",
    b"TOC",
    b"MOVE",
    b"LOAD",
    b"STORE",
    b"NEWREGION",
    b"NEWSUB",
    b"REGIONOF",
    b"RALLOC",
    b"RARRAY",
    b"DELETE",
    b"CALL",
    b"RET",
    b"PUT",
    b"GETC",
    b"JUMP",
    b"JZ",
    b"BACK",
    b"POP",
];

/// Whether the row of that number has this name, and says so itself.
fn is_row(number: u32, name: &[u8]) -> bool {
    match Opcode::numbered(number) {
        Some(opcode) => u32::from(opcode.number()) == number && opcode.name() == name,
        None => false,
    }
}

/// Whether the rows of the table have these names from number 0 on, and are no more.
fn is_table(names: &[&[u8]]) -> bool {
    let mut number = 0u32;
    for name in names {
        if !is_row(number, name) {
            return false;
        }
        number = number.saturating_add(1);
    }
    Opcode::numbered(number).is_none()
}

/// Whether each tag up to 7 is that of its cell, and 8 none.
fn cells_have_tags() -> bool {
    for tag in 0..8u32 {
        match Cell::tagged(tag) {
            Some(cell) => {
                if u32::from(cell.tag()) != tag || !cell.is_as(cell) {
                    return false;
                }
            }
            None => return false,
        }
    }
    Cell::tagged(8).is_none()
}

/// Whether each tag up to 4 is that of its storage, and 5 none.
fn locals_have_tags() -> bool {
    for tag in 0..5u32 {
        match Storage::tagged(tag) {
            Some(storage) => {
                if u32::from(storage.tag()) != tag {
                    return false;
                }
            }
            None => return false,
        }
    }
    Storage::tagged(5).is_none()
}

#[test]
fn the_table_has_its_names(rt: HostRuntime) {
    assert!(rt; is_table(&NAMES));
}

#[test]
fn tags_are_those_of_their_kinds(rt: HostRuntime) {
    assert!(rt; cells_have_tags());
    assert!(rt; locals_have_tags());
}
