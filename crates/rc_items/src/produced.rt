// What an item adds to the program.

use rc_core::parts::{Function, Global};

/// What an item adds to the program.
#[derive(Drop)]
pub(crate) enum Produced {
    Nothing,
    Global(Global),
    Function(Function),
}
