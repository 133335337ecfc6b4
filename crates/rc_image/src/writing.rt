// Writing an image.
ghost use Rattle.std.specs.Prelude.{◌≡◌, ◌⊎◌, ◌++◌, IfOk, OnOk};
ghost use Rattle.rc_image.specs.declared.version.Version.TheVariants.{Two};
ghost use Rattle.rc_image.specs.Spelling.{spelling, start_bytes, fields_bytes, proofs_bytes, version_numbered};

use crate::functions::write_functions;
use crate::version::Version;
use rc_base::NoMemory;
use rc_code::{Image, Parts};
use rc_fields::{write_globals, write_number, write_types};
use rc_path_rules::write_paths;
use std::alloc::{AllocError, Global};

/// Writes the magic and the version.
///
/// # Errors
///
/// Where there is no memory. What `out` then holds is not said.
pub fn write_start(out: &mut Vec<u8>, version: Version) -> Result<(), AllocError>
    ensures { OnOk result (out.new.items ≡ out.old.items ++ start_bytes version) }
{
    out.extend_from_slice(b"RCIM")?;
    match version {
        Version::One => out.push(1)?,
        Version::Two => out.push(2)?,
    }
    Ok(())
}

/// Writes the parts of an image, up to the number of its `main`.
///
/// # Errors
///
/// Where there is no memory. What `out` then holds is not said.
pub fn write_fields(
    alloc: Global,
    out: &mut Vec<u8>,
    version: Version,
    parts: &Parts,
) -> Result<(), AllocError>
    ensures { OnOk result (out.new.items ≡ out.old.items ++ fields_bytes version parts.now) }
{
    write_types(out, parts.types.as_slice())?;
    write_globals(out, parts.globals.as_slice())?;
    write_paths(out, parts.paths.as_slice())?;
    write_functions(alloc, out, version, parts.functions.as_slice())?;
    write_number(out, u64::from(parts.main))
}

/// Writes how many proofs there are, which is none.
fn write_proofs(out: &mut Vec<u8>, version: Version) -> Result<(), AllocError>
    ensures { OnOk result (out.new.items ≡ out.old.items ++ proofs_bytes version) }
{
    match version {
        Version::One => Ok(()),
        Version::Two => write_number(out, 0),
    }
}

fn write_all(alloc: Global, image: &Image, version: Version) -> Result<Vec<u8>, AllocError>
    ensures { IfOk result (λ v. v.items ≡ spelling version image.now) }
{
    let mut out = Vec::new(alloc);
    write_start(&mut out, version)?;
    write_fields(alloc, &mut out, version, image.parts())?;
    write_proofs(&mut out, version)?;
    Ok(out)
}

/// The bytes of an image in version 1 or 2 of the format.
///
/// # Errors
///
/// `NoMemory` where there is none.
pub fn write_version(alloc: Global, image: &Image, version: u8) -> Result<Vec<u8>, NoMemory>
    requires { (version ≡ 1) ⊎ (version ≡ 2) }
    ensures { IfOk result (λ v. v.items ≡ spelling (version_numbered version) image.now) }
{
    let version = if version == 1 {
        Version::One
    } else {
        Version::Two
    };
    match write_all(alloc, image, version) {
        Ok(bytes) => Ok(bytes),
        Err(_) => Err(NoMemory),
    }
}

/// The bytes of an image in version 2 of the format.
///
/// # Errors
///
/// `NoMemory` where there is none.
pub fn write(alloc: Global, image: &Image) -> Result<Vec<u8>, NoMemory>
    ensures { IfOk result (λ v. v.items ≡ spelling Two image.now) }
{
    write_version(alloc, image, 2)
}
