// Images with a byte changed.
use crate::asking::is_written;
use crate::row::Row;
use rc_image::{ImageFault, read};
use rc_loader::{LoadFault, load};
use rc_row_files::Found;
use std::alloc::Global;
use std::io;

/// Whether bytes are read as an image that has them, and loaded, or refused.
fn is_answered(alloc: Global, bytes: &[u8]) -> io::Result<bool> {
    match read(alloc, bytes) {
        Err(fault) => Ok(fault != ImageFault::Memory),
        Ok(image) => {
            if !is_written(alloc, bytes, &image)? {
                return Ok(false);
            }
            Ok(!matches!(load(alloc, image), Err(LoadFault::Memory)))
        }
    }
}

/// The bytes with the one at that place changed to these.
fn changed(alloc: Global, bytes: &[u8], at: usize, to: &[u8]) -> io::Result<Vec<u8>> {
    let mut other = Vec::new(alloc);
    for (place, byte) in bytes.iter().enumerate() {
        if place != at {
            other.push(*byte)?;
            continue;
        }
        for new in to {
            other.push(*new)?;
        }
    }
    Ok(other)
}

/// Tries the image with a byte changed, taken away and doubled, and the bytes before it alone.
fn try_at(alloc: Global, bytes: &[u8], at: usize, byte: u8) -> io::Result<Found> {
    let mut found = Found::none();
    let others: [&[u8]; 8] = [
        &[],
        &[byte, byte],
        &[byte ^ 1],
        &[byte ^ 128],
        &[byte.wrapping_add(1)],
        &[byte.wrapping_sub(1)],
        &[0],
        &[255],
    ];
    for to in others {
        let other = changed(alloc, bytes, at, to)?;
        found = found.and(Found::one(!is_answered(alloc, other.as_slice())?));
    }
    if let Some(prefix) = bytes.get(..at) {
        let short = matches!(read(alloc, prefix), Err(ImageFault::Short));
        found = found.and(Found::one(!short));
    }
    Ok(found)
}

/// Tries an image with each of its bytes changed.
pub(crate) fn swept(rt: &HostRuntime, file: &str, row: &Row) -> io::Result<Found> {
    let mut all = Found::none();
    for (at, byte) in row.image.iter().enumerate() {
        let found = try_at(rt.alloc(), row.image.as_slice(), at, *byte)?;
        all = all.and(found);
        if found.differ > 0 {
            let name = row.name.as_str();
            println!(rt; "{file}: {name}: changed at {at}")?;
        }
    }
    Ok(all)
}
