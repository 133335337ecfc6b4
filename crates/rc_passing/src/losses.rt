// What lost facts.

use rc_base::NoMemory;

/// A set that lost facts.
#[derive(Clone, Copy)]
pub enum Loss {
    /// That of the entry of a function.
    Entry(usize),
    /// That of the exit of the function that is gone over.
    Exit,
    /// That of one of its heads.
    Head(u32),
}

/// Notes a set, if it lost a fact.
pub fn note(losses: &mut Vec<Loss>, lost: bool, set: Loss) -> Result<(), NoMemory> {
    if lost {
        losses.push(set)?;
    }
    Ok(())
}
