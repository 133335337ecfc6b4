//! The bytes of an image, in both versions of its format. `specs/Spelling` says which bytes an image
//! has, and `specs/Reading` how they are read from left to right, and where a reader stops. The fields
//! before the functions, and what locals and results hold, are those of `rc_fields`.
#![tactic(auto)]

mod fault;
mod functions;
mod instructions;
mod laws;
mod lines;
mod reading;
mod run;
mod version;
mod writing;

pub use fault::ImageFault;
pub use laws::no_image_begins_another;
pub use reading::{fault_of, read, read_fields, read_start};
pub use version::Version;
pub use writing::{write, write_fields, write_start, write_version};
