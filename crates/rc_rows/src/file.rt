// Files, and what stands under names.
use crate::piece::push_piece;
use rc_row_files::unread;
use std::alloc::{AllocError, Global};
use std::io;

/// A name, and what stands under it.
#[derive(Drop)]
pub(crate) struct File {
    pub(crate) name: String,
    pub(crate) bytes: Vec<u8>,
}

/// Puts a file without bytes behind the others.
pub(crate) fn push_file(
    alloc: Global,
    files: &mut Vec<File>,
    name: &str,
) -> Result<(), AllocError> {
    let name = String::from_str(alloc, name)?;
    let bytes = Vec::new(alloc);
    Ok(files.push(File { name, bytes })?)
}

fn copy_of(file: &File) -> Result<File, AllocError> {
    let name = file.name.clone()?;
    let bytes = file.bytes.clone()?;
    Ok(File { name, bytes })
}

/// Puts files behind the others.
pub(crate) fn push_files(files: &mut Vec<File>, more: &[File]) -> io::Result<()> {
    for file in more {
        files.push(copy_of(file)?)?;
    }
    Ok(())
}

/// Whether the last file has this name.
fn is_last(files: &[File], name: &str) -> bool {
    match files {
        [.., file] => file.name.as_str() == name,
        [] => false,
    }
}

/// Puts a piece at the end of the last file.
fn push_to_last(files: &mut [File], piece: &str) -> io::Result<()> {
    match files {
        [.., file] => push_piece(&mut file.bytes, piece),
        [] => unread(),
    }
}

/// Puts a piece at the end of the file of this name, which is the last one, or a new one.
pub(crate) fn push_under(
    alloc: Global,
    files: &mut Vec<File>,
    name: &str,
    piece: &str,
) -> io::Result<()> {
    if !is_last(files.as_slice(), name) {
        push_file(alloc, files, name)?;
    }
    push_to_last(files.as_mut_slice(), piece)
}

/// What stands under a name: the bytes of the last file that has it.
pub(crate) fn under<'a>(files: &'a [File], name: &str) -> Option<&'a [u8]> {
    for file in files.iter().rev() {
        if file.name.as_str() == name {
            return Some(file.bytes.as_slice());
        }
    }
    None
}
