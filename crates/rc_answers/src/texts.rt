// The texts of all answers.
ghost use Rattle.std.specs.Prelude.{◌≡◌, ◌≢◌, ◌++◌, [], codes};
ghost use Rattle.std.specs.Fmt.{decimal};
ghost use Rattle.rc_answers.specs.LineBytes.{line_bytes};
ghost use Rattle.rc_answers.specs.Lines.{answer_line, done_line, end_line, fault_line, image_refusal_line, in_file, in_file_on, link_refusal_line, on_line, refusal_line, refused_by, refused_on, trap_name, unit_refusal_line};

use crate::line::Line;
use crate::numbered::Numbered;
use crate::{Done, Fault, ImageRefusal, LinkRefusal};
use rc_base::{End, Trap};
use rc_compile::Refusal;

fn text(text: &'static [u8]) -> Line
    ensures { line_bytes result ≡ text.entry.now }
{
    Line {
        text,
        first: None,
        second: None,
    }
}

fn on_line(line: u32, text: &'static [u8]) -> Line
    ensures { line_bytes result ≡ on_line line text.entry.now }
{
    Line {
        text: b"rc: line ",
        first: Some(Numbered {
            number: u64::from(line),
            text,
        }),
        second: None,
    }
}

fn trap_text(trap: Trap) -> &'static [u8]
    ensures { result.now ≡ codes ": trap " ++ trap_name trap ++ codes "\n" }
{
    match trap {
        Trap::Null => b": trap null\n",
        Trap::Bounds => b": trap bounds\n",
        Trap::Size => b": trap size\n",
        Trap::Zero => b": trap zero\n",
        Trap::Overflow => b": trap overflow\n",
        Trap::Shift => b": trap shift\n",
        Trap::SameRegion => b": trap sameregion\n",
        Trap::ParentPtr => b": trap parentptr\n",
        Trap::Traditional => b": trap traditional\n",
        Trap::Root => b": trap root\n",
        Trap::Subregion => b": trap subregion\n",
        Trap::Reference => b": trap reference\n",
        Trap::Full => b": trap full\n",
    }
}

/// The name of a trap: what its line says of it behind `trap`.
pub fn trap_name(trap: Trap) -> &'static [u8]
    ensures { result.now ≡ trap_name trap }
{
    let name = &trap_text(trap)[7..];
    &name[..name.len() - 1]
}

fn end_line(end: End) -> Line
    ensures { line_bytes result ≡ end_line end }
{
    match end {
        End::Exit(_) => text(b""),
        End::Trapped(trap, line) => on_line(line, trap_text(trap)),
        End::Spent => text(b"rc: spent\n"),
    }
}

/// The line of a refusal that is of no place in the text.
fn refused(refusal: Refusal) -> &'static [u8]
    ensures { result.now ≡ codes "rc" ++ refused_by refusal }
{
    match refusal {
        Refusal::TooLong => b"rc: refused 1 too-long\n",
        Refusal::Byte(_) => b"rc: refused 2 byte\n",
        Refusal::Token(_) => b"rc: refused 3 token\n",
        Refusal::Syntax(_) => b"rc: refused 4 syntax\n",
        Refusal::Deep(_) => b"rc: refused 5 deep\n",
        Refusal::Unknown(_) => b"rc: refused 6 unknown\n",
        Refusal::Twice(_) => b"rc: refused 7 twice\n",
        Refusal::Mistyped(_) => b"rc: refused 8 type\n",
        Refusal::Arity(_) => b"rc: refused 9 arity\n",
        Refusal::AnnotationPlace(_) => b"rc: refused 10 annotation-place\n",
        Refusal::NotDeletes(_) => b"rc: refused 11 not-deletes\n",
        Refusal::DeletesPlace(_) => b"rc: refused 12 deletes-place\n",
        Refusal::Main(_) => b"rc: refused 13 main\n",
        Refusal::TooBig(_) => b"rc: refused 14 too-big\n",
        Refusal::Variables(_) => b"rc: refused 15 variables\n",
        Refusal::Points => b"rc: refused 16 points\n",
    }
}

/// What it says behind the place.
fn refused_by(refusal: Refusal) -> &'static [u8]
    ensures { result.now ≡ refused_by refusal }
{
    &refused(refusal)[2..]
}

/// The line of the text that a refusal names.
fn refused_on(refusal: Refusal) -> Option<u32>
    ensures { result ≡ refused_on refusal }
{
    match refusal {
        Refusal::Byte(line)
        | Refusal::Token(line)
        | Refusal::Syntax(line)
        | Refusal::Deep(line)
        | Refusal::Unknown(line)
        | Refusal::Twice(line)
        | Refusal::Mistyped(line)
        | Refusal::Arity(line)
        | Refusal::AnnotationPlace(line)
        | Refusal::NotDeletes(line)
        | Refusal::DeletesPlace(line)
        | Refusal::Main(line)
        | Refusal::TooBig(line)
        | Refusal::Variables(line) => Some(line),
        Refusal::TooLong | Refusal::Points => None,
    }
}

fn refusal_line(refusal: Refusal) -> Line
    ensures { line_bytes result ≡ refusal_line refusal }
{
    match refused_on(refusal) {
        Some(line) => on_line(line, refused_by(refusal)),
        None => text(refused(refusal)),
    }
}

/// A line of a text in one of several files.
fn in_file_on(file: u32, line: u32, text: &'static [u8]) -> Line
    ensures { line_bytes result ≡ in_file_on file line text.entry.now }
{
    Line {
        text: b"rc: file ",
        first: Some(Numbered {
            number: u64::from(file),
            text: b": line ",
        }),
        second: Some(Numbered {
            number: u64::from(line),
            text,
        }),
    }
}

/// One of several files.
fn in_file(file: u32, text: &'static [u8]) -> Line
    ensures { line_bytes result ≡ in_file file text.entry.now }
{
    Line {
        text: b"rc: file ",
        first: Some(Numbered {
            number: u64::from(file),
            text,
        }),
        second: None,
    }
}

fn unit_refusal_line(file: u32, refusal: Refusal) -> Line
    ensures { line_bytes result ≡ unit_refusal_line file refusal }
{
    match refused_on(refusal) {
        Some(line) => in_file_on(file, line, refused_by(refusal)),
        None => in_file(file, refused_by(refusal)),
    }
}

fn link_refusal_line(refusal: LinkRefusal) -> Line
    ensures { line_bytes result ≡ link_refusal_line refusal }
{
    match refusal {
        LinkRefusal::Disagree(file, line) => {
            in_file_on(file, line, b": link refused 32 disagree\n")
        }
        LinkRefusal::Double(file, line) => in_file_on(file, line, b": link refused 33 double\n"),
        LinkRefusal::Missing(file, line) => in_file_on(file, line, b": link refused 34 missing\n"),
        LinkRefusal::Entry => text(b"rc: link refused 35 entry\n"),
        LinkRefusal::Large => text(b"rc: link refused 36 large\n"),
    }
}

#[tactic(auto, using(crate::proofs::EmptyLines::begins))]
fn at_instruction(text: &'static [u8], function: u32, instruction: u32) -> Line
    requires { text.now ≢ [] }
    ensures { line_bytes result ≡ text.entry.now ++ (decimal function ++ codes " at ") ++ (decimal instruction ++ codes "\n") }
{
    Line {
        text,
        first: Some(Numbered {
            number: u64::from(function),
            text: b" at ",
        }),
        second: Some(Numbered {
            number: u64::from(instruction),
            text: b"\n",
        }),
    }
}

fn image_refusal_line(refusal: ImageRefusal) -> Line
    ensures { line_bytes result ≡ image_refusal_line refusal }
{
    match refusal {
        ImageRefusal::Magic => text(b"rc: image refused 17 magic\n"),
        ImageRefusal::Version => text(b"rc: image refused 18 version\n"),
        ImageRefusal::Short => text(b"rc: image refused 19 short\n"),
        ImageRefusal::Extra => text(b"rc: image refused 20 extra\n"),
        ImageRefusal::Field(offset) => Line {
            text: b"rc: image refused 21 field at ",
            first: Some(Numbered {
                number: offset,
                text: b"\n",
            }),
            second: None,
        },
        ImageRefusal::Target(function, instruction) => {
            at_instruction(b"rc: image refused 22 target in ", function, instruction)
        }
        ImageRefusal::Height(function, instruction) => {
            at_instruction(b"rc: image refused 23 height in ", function, instruction)
        }
        ImageRefusal::Kind(function, instruction) => {
            at_instruction(b"rc: image refused 24 kind in ", function, instruction)
        }
        ImageRefusal::Number(function, instruction) => {
            at_instruction(b"rc: image refused 25 number in ", function, instruction)
        }
        ImageRefusal::Facts(function, instruction) => {
            at_instruction(b"rc: image refused 29 facts in ", function, instruction)
        }
        ImageRefusal::Pins(function, instruction) => {
            at_instruction(b"rc: image refused 30 pins in ", function, instruction)
        }
        ImageRefusal::Wide(function) => Line {
            text: b"rc: image refused 31 wide in ",
            first: Some(Numbered {
                number: u64::from(function),
                text: b"\n",
            }),
            second: None,
        },
    }
}

/// How the program is called.
const USAGE: &[u8] =
    b"usage: rc run FILE | compile FILE IMAGE | exec IMAGE | checks FILE | list IMAGE | slow FILE | soak N | upgrade IMAGE IMAGE | heap FILE | tasks FILE CHOICES | link IMAGE FILE | seal IMAGE IMAGE\n";

fn done_line(done: Done) -> Line
    ensures { line_bytes result ≡ done_line done }
{
    match done {
        Done::Ended(end) => end_line(end),
        Done::StaleImage(line) => on_line(line, b": stale image\n"),
        Done::Refused(refusal) => refusal_line(refusal),
        Done::ImageRefused(refusal) => image_refusal_line(refusal),
        Done::UnitRefused(file, refusal) => unit_refusal_line(file, refusal),
        Done::LinkRefused(refusal) => link_refusal_line(refusal),
        Done::Wrote | Done::Reported => text(b""),
        Done::Usage => text(USAGE),
    }
}

fn fault_line(fault: Fault) -> Line
    ensures { line_bytes result ≡ fault_line fault }
{
    match fault {
        Fault::FileFault => text(b"rc: file fault\n"),
        Fault::ReadFault => text(b"rc: read fault\n"),
        Fault::WriteFault => text(b"rc: write fault\n"),
        Fault::ErrFault => text(b""),
        Fault::Memory => text(b"rc: no memory\n"),
    }
}

/// The line of an answer. One without a line has an empty text.
pub(crate) fn line_of(answer: &Result<Done, Fault>) -> Line
    ensures { line_bytes result ≡ answer_line answer.now }
{
    match answer {
        Ok(done) => done_line(*done),
        Err(fault) => fault_line(*fault),
    }
}
