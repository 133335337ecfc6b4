//! Images that carry their proofs: what it means that these prove every instruction, and that calls and
//! deletions pin what is used after them; and the law that such an image runs as it does with every
//! check made.
//!
//! `specs/` is to be read in the order of `specs/Lib.antt`: `ImageVariables` has a function's
//! variables, `Carrying` the facts before an instruction, `Proved` and `Pinned` what is asked of an
//! instruction, `AllProved` what is asked of an image, `Faults` what is told where that isn't so, `Law` what
//! follows, `Claimed` the facts that an image's bits claim, and `Examples` small images that are judged.
#![tactic(auto)]

ghost use Rattle.rc_annotations.specs.Annotations.{Annotation};
ghost use Rattle.rc_code.specs.declared.image.Parts.{Parts};
ghost use Rattle.rc_code.specs.Image.{FieldsFit};
ghost use Rattle.rc_code.specs.Soundness.{Sound};
ghost use Rattle.rc_sealed.specs.AllProved.{AllProved};
ghost use Rattle.rc_sealed.specs.Law.{IsLawful};
ghost use Rattle.rc_sealed.specs.Claimed.{ClaimsAreOver};
ghost use Rattle.rc_sealed.specs.Examples.{Examples};

mod fault;

pub use fault::ProofFault;

/// A sound image of which proofs prove every instruction, and whose calls and deletions pin what is
/// used after them: on no input and limits does a store without its check meet a value that doesn't
/// fit, no run of it touches a dead region, and each run of it is the run of the same image with every
/// check made: the same acts, the same bytes taken, the same end with its line, and the same regions,
/// objects and values left.
pub fn proved_images_are_lawful()
    ensures { (parts : Parts) → FieldsFit parts → Sound parts → (proofs : Annotation) → AllProved parts proofs → IsLawful parts }
{}

/// The definitions accept a marked store that the facts prove, and a deletion that pins what is used
/// after it, and not one that doesn't.
pub fn examples_are_judged()
    ensures { Examples }
{}

/// The bits that an image carries speak of no variable that they may not speak of, whatever they are.
pub fn claims_speak_of_their_variables()
    ensures { ClaimsAreOver }
{}
