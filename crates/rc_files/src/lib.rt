//! Texts and images in files. A text is loaded, and one that is no program is refused: `specs/Texts` says
//! what the rows of the tables have to say of a request for it, and `specs/Programs` what it comes to to
//! run a text. Images are loaded, with the proofs that they carry, listed, and stored in the newest
//! version of their format, with proofs or without.
#![tactic(auto)]

mod image_file;
mod list;
mod storing;
mod text_file;
mod text_files;
mod upgrade;

pub use image_file::{Carried, NoImage, load_image};
pub use list::list_image;
pub use storing::{store_image, store_sealed};
pub use text_file::{NoText, load_text};
pub use text_files::{FileText, load_texts};
pub use upgrade::upgrade_image;
