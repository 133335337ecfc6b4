// Paths at the edges of words: which cells of a type are alike is kept in words of 64 bits.
use rc_image::{ImageFault, read};
use std::alloc::{AllocError, Global};

/// How many cells a type has, a path's offset, its indices (length and stride), and whether it keeps the
/// rules. All cells but the last are alike.
const PATHS: [(u8, u8, &[(u8, u8)], bool); 22] = [
    (63, 0, &[(62, 1)], true),
    (63, 0, &[(63, 1)], false),
    (64, 0, &[(63, 1)], true),
    (64, 0, &[(64, 1)], false),
    (65, 0, &[(64, 1)], true),
    (65, 0, &[(65, 1)], false),
    (65, 1, &[(63, 1)], true),
    (65, 1, &[(64, 1)], false),
    (65, 64, &[], true),
    (66, 0, &[(65, 1)], true),
    (66, 0, &[(66, 1)], false),
    (127, 63, &[(63, 1)], true),
    (127, 64, &[(63, 1)], false),
    (127, 0, &[(7, 18), (18, 1)], true),
    (127, 1, &[(7, 18), (18, 1)], false),
    (127, 0, &[(5, 25), (3, 8), (6, 1)], true),
    (127, 4, &[(5, 25), (1, 24), (3, 8), (6, 1)], true),
    (127, 5, &[(5, 25), (3, 8), (6, 1)], false),
    (127, 1, &[(5, 31)], true),
    (127, 2, &[(5, 31)], false),
    (127, 1, &[(63, 2)], true),
    (127, 2, &[(63, 2)], false),
];

/// Adds a path from a pointer to the only type.
fn add_path(out: &mut Vec<u8>, offset: u8, indices: &[(u8, u8)]) -> Result<(), AllocError> {
    let count = u8::try_from(indices.len()).unwrap_or(0);
    out.extend_from_slice(&[0, 0, offset, count])?;
    for (length, stride) in indices {
        out.extend_from_slice(&[*length, *stride, 0])?;
    }
    Ok(())
}

/// The beginning of an image, up to its paths. All but the last go over all cells that are alike.
fn begin_image(
    alloc: Global,
    cells: u8,
    offset: u8,
    indices: &[(u8, u8)],
) -> Result<Vec<u8>, AllocError> {
    let mut out = Vec::new(alloc);
    out.extend_from_slice(b"RCIM\x02\x01")?;
    out.push(cells)?;
    for _ in 1..cells {
        out.push(0)?;
    }
    out.extend_from_slice(&[1, 0, 5])?;
    for _ in 0..4 {
        add_path(&mut out, 0, &[(cells.saturating_sub(1), 1)])?;
    }
    add_path(&mut out, offset, indices)?;
    Ok(out)
}

/// Whether the path keeps the rules: then what is missing are functions.
fn is_path(alloc: Global, cells: u8, offset: u8, indices: &[(u8, u8)]) -> bool {
    let Ok(bytes) = begin_image(alloc, cells, offset, indices) else {
        return false;
    };
    match read(alloc, &bytes) {
        Err(ImageFault::Short) => true,
        _ => false,
    }
}

fn are_paths(alloc: Global, rows: &[(u8, u8, &[(u8, u8)], bool)]) -> bool {
    for (cells, offset, indices, keeps) in rows {
        if is_path(alloc, *cells, *offset, indices) != *keeps {
            return false;
        }
    }
    true
}

#[test]
fn paths_reach_one_kind_at_the_edges_of_words(rt: HostRuntime) {
    assert!(rt; are_paths(rt.alloc(), &PATHS));
}
