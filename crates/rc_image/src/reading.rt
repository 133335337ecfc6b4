// Reading an image.
ghost use Rattle.std.specs.Prelude.{◌≡◌, length, IfOk, Ok};
ghost use Rattle.rc_code.specs.declared.image.Parts.{Parts};
ghost use Rattle.rc_code.specs.Image.{FieldsFit};
ghost use Rattle.rc_image.specs.declared.version.Version.{Version};
ghost use Rattle.rc_image.specs.Spelling.{spelling};
ghost use Rattle.rc_fields.specs.Reading.{Gives};
ghost use Rattle.rc_image.specs.Reading.{Answers, letter_at, version_at, start_at, proofs_at, fields_at, parts_at, parts_of, answered};

use crate::fault::ImageFault;
use crate::functions::read_functions;
use crate::version::Version;
use rc_code::{Image, Items, Parts};
use rc_fields::{Stop, read_globals, read_types, read_within};
use rc_path_rules::read_paths;
use std::alloc::Global;

/// Reads a letter of the magic.
fn read_letter(letter: u8, bytes: &[u8]) -> Result<&[u8], Stop>
    ensures { Gives (λ x. x.now) result (letter_at letter bytes.now) }
{
    match bytes {
        [] => Err(Stop::Short),
        [byte, rest @ ..] => {
            if *byte == letter {
                Ok(rest)
            } else {
                Err(Stop::Magic)
            }
        }
    }
}

/// Reads the version.
fn read_version(bytes: &[u8]) -> Result<(Version, &[u8]), Stop>
    ensures { Gives (λ x. (x.0, x.1.now)) result (version_at bytes.now) }
{
    match bytes {
        [] => Err(Stop::Short),
        [1, rest @ ..] => Ok((Version::One, rest)),
        [2, rest @ ..] => Ok((Version::Two, rest)),
        [_, ..] => Err(Stop::Version),
    }
}

/// Reads the magic and the version, and gives the bytes after them.
///
/// # Errors
///
/// `Magic`, `Version`, and `Short` where the bytes end before.
#[tactic(auto, unfolding(crate::specs::Reading::start_at))]
pub fn read_start(bytes: &[u8]) -> Result<(Version, &[u8]), Stop>
    ensures { Gives (λ x. (x.0, x.1.now)) result (start_at bytes.now) }
{
    let rest = read_letter(82, bytes)?;
    let rest = read_letter(67, rest)?;
    let rest = read_letter(73, rest)?;
    let rest = read_letter(77, rest)?;
    read_version(rest)
}

/// Reads how many proofs there are, which is none.
#[tactic(auto, unfolding(crate::specs::Reading::proofs_at))]
fn read_proofs(version: Version, bytes: &[u8]) -> Result<&[u8], Stop>
    ensures { Gives (λ x. x.now) result (proofs_at version bytes.now) }
{
    match version {
        Version::One => Ok(bytes),
        Version::Two => {
            let (_, rest) = read_within(0, 1, bytes)?;
            Ok(rest)
        }
    }
}

/// Reads the parts of an image, up to the number of its `main`, and gives the bytes after it.
///
/// # Errors
///
/// `Short` where the bytes end inside, `Field` with the first field that breaks a rule, and `Memory`
/// where there is none.
#[tactic(auto, unfolding(crate::specs::Reading::fields_at))]
pub fn read_fields(alloc: Global, version: Version, bytes: &[u8]) -> Result<(Parts, &[u8]), Stop>
    ensures { Gives (λ x. (x.0, x.1.now)) result (fields_at version bytes.now) }
{
    let (types, rest) = read_types(alloc, bytes)?;
    let (globals, rest) = read_globals(alloc, &types, rest)?;
    let (paths, rest) = read_paths(alloc, &types, rest)?;
    let (functions, rest) = read_functions(alloc, version, types.len(), rest)?;
    let (main, rest) = read_within(0, functions.len() as u64, rest)?;
    let parts = Parts {
        types: Items::new(types),
        globals: Items::new(globals),
        paths: Items::new(paths),
        functions: Items::new(functions),
        main,
    };
    Ok((parts, rest))
}

/// Reads the parts of an image, without proofs.
#[tactic(auto, unfolding(crate::specs::Reading::parts_at))]
fn read_parts(alloc: Global, version: Version, bytes: &[u8]) -> Result<(Parts, &[u8]), Stop>
    ensures { Gives (λ x. (x.0, x.1.now)) result (parts_at version bytes.now) }
{
    let (parts, rest) = read_fields(alloc, version, bytes)?;
    let rest = read_proofs(version, rest)?;
    Ok((parts, rest))
}

/// Reads the parts of an image of which these are all bytes.
#[tactic(auto, unfolding(crate::specs::Reading::parts_of))]
fn read_all(alloc: Global, bytes: &[u8]) -> Result<Parts, Stop>
    ensures { Gives (λ x. x) result (parts_of bytes.now) }
{
    let (version, rest) = read_start(bytes)?;
    let (parts, rest) = read_parts(alloc, version, rest)?;
    if !rest.is_empty() {
        return Err(Stop::Extra);
    }
    Ok(parts)
}

/// Why bytes are no image, of which there are so many.
pub fn fault_of(stop: Stop, total: usize) -> ImageFault
    ensures { result ≡ answered total stop }
{
    match stop {
        Stop::Memory => ImageFault::Memory,
        Stop::Magic => ImageFault::Magic,
        Stop::Version => ImageFault::Version,
        Stop::Short => ImageFault::Short,
        Stop::Extra => ImageFault::Extra,
        Stop::Field(left) => ImageFault::Field(total.saturating_sub(left) as u64),
    }
}

/// The image that the bytes spell, all of them, in either version.
///
/// # Errors
///
/// The first fault from left to right, or `Memory`. It takes memory for what was read alone: a count
/// that the bytes can't fill takes none.
pub fn read(alloc: Global, bytes: &[u8]) -> Result<Image, ImageFault>
    // What is read is spelled so.
    ensures found { IfOk result (λ parts. FieldsFit parts × ((version : Version) × (bytes.now ≡ spelling version parts))) }
    // What is spelled so is read, unless memory runs out.
    ensures only { (version : Version) (parts : Parts) → FieldsFit parts → bytes.now ≡ spelling version parts → Answers (length bytes.now) result (Ok parts) }
    // Which fault it is.
    ensures exact { Answers (length bytes.now) result (parts_of bytes.now) }
{
    match read_all(alloc, bytes) {
        Ok(parts) => Ok(Image::new(parts)),
        Err(stop) => Err(fault_of(stop, bytes.len())),
    }
}
