// Images that may be run.
ghost use Rattle.std.specs.Prelude.{◌≡◌};
ghost use Rattle.rc_code.specs.Soundness.{Sound};
ghost use Rattle.rc_code.specs.Faithful.{Faithful};

use crate::image::Image;
use std::marker::Model;

/// An image that may be run. Its code keeps the rules: each operand names what is there, jumps stay
/// in their function, and operands are there and have their kinds. And its marks are right: no store
/// with a mark, whose check is left out, ever meets a value that doesn't fit.
#[derive(Drop)]
pub struct Loaded {
    image: Image,
}

impl Model for Loaded {
    ghost use Rattle.rc_code.specs.declared.image.Parts.{Parts};

    ghost Value = { Parts };

    ghost use Rattle.rc_code.specs.Soundness.{Sound};
    ghost use Rattle.rc_code.specs.Faithful.{Faithful};

    ghost view = { λ l. l.image };

    ghost invariant = { λ l. Sound l.image × Faithful l.image };
}

impl Loaded {
    /// An image whose code keeps the rules, and whose marks are right.
    pub fn new(image: Image) -> Loaded
        requires sound { Sound image }
        requires faithful { Faithful image }
        ensures { result ≡ image }
    {
        Loaded { image }
    }

    /// The image.
    pub fn image(&self) -> &Image
        ensures image { result.now ≡ self.now }
        ensures sound { Sound self.now }
        ensures faithful { Faithful self.now }
    {
        &self.image
    }
}
