// What an image comes to.
use crate::listing::listing_of;
use crate::row::Row;
use rc_code::Image;
use rc_image::{read, write, write_version};
use rc_loader::{LoadFault, load};
use std::alloc::{AllocError, Global};
use std::io::{self, ErrorKind};

/// Whether bytes of an image that was read are those of one of its versions.
pub(crate) fn is_written(alloc: Global, bytes: &[u8], image: &Image) -> io::Result<bool> {
    for version in [1, 2] {
        let Ok(written) = write_version(alloc, image, version) else {
            return Err(io::Error::from(ErrorKind::OutOfMemory));
        };
        if written.as_slice() == bytes {
            return Ok(true);
        }
    }
    Ok(false)
}

/// What loading comes to.
fn loaded(alloc: Global, image: Image) -> Result<String, AllocError> {
    match load(alloc, image) {
        Ok(_) => String::from_str(alloc, "Loaded"),
        Err(LoadFault::Memory) => String::from_str(alloc, "Memory"),
        Err(LoadFault::Broken(violation)) => {
            let rule = violation.rule;
            let function = violation.function;
            let instruction = violation.instruction;
            format!(in alloc; "{rule:?}({function}, {instruction})")
        }
    }
}

/// What an image that was read is listed as and written as, and whether its bytes are its own.
fn is_other(alloc: Global, row: &Row, image: &Image) -> io::Result<bool> {
    if !is_written(alloc, row.image.as_slice(), image)? {
        return Ok(true);
    }
    let listing = listing_of(alloc, image.parts())?;
    if !row.listing.is_empty() && row.listing.as_str() != listing.as_str() {
        return Ok(true);
    }
    let Ok(written) = write(alloc, image) else {
        return Err(io::Error::from(ErrorKind::OutOfMemory));
    };
    Ok(!row.written.is_empty() && row.written.as_slice() != written.as_slice())
}

/// What reading and then loading come to.
fn answer_of(alloc: Global, row: &Row) -> io::Result<(String, bool)> {
    match read(alloc, row.image.as_slice()) {
        Err(fault) => Ok((format!(in alloc; "{fault:?}")?, false)),
        Ok(image) => {
            let other = is_other(alloc, row, &image)?;
            Ok((loaded(alloc, image)?, other))
        }
    }
}

/// Whether an image comes to another thing than the row wants, which is then printed.
pub(crate) fn differs(rt: &HostRuntime, file: &str, row: &Row) -> io::Result<bool> {
    let (answer, other) = answer_of(rt.alloc(), row)?;
    if !other && (row.answer.is_empty() || row.answer.as_str() == answer.as_str()) {
        return Ok(false);
    }
    let name = row.name.as_str();
    let found = answer.as_str();
    println!(rt; "{file}: {name}: {found}, and other bytes or lines: {other}")?;
    Ok(true)
}
