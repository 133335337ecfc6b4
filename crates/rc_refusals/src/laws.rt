// Laws of the refusals of images.
ghost use Rattle.rc_refusals.specs.Kinds.{OneKindIsOfAll};
ghost use Rattle.rc_refusals.specs.Refusals.{RefusalsSpeak, CarriedRefusalsSpeak};

/// The bytes of an image without their end, however few are left or missing, are too short. With bytes
/// behind them they are too long. Every other refusal is decided by the bytes up to it: it is the same,
/// with the same offset, whatever comes behind.
pub fn refusals_speak_of_spellings()
    ensures { RefusalsSpeak }
{}

/// The same of the bytes of an image that may carry proofs, and of its reader.
pub fn refusals_speak_of_carried_images()
    ensures { CarriedRefusalsSpeak }
{}

/// The cells that a path reaches are tested to have one kind exactly where each choice of indices, below
/// the lengths of the path's indices, leads to a cell of that kind. It is said of paths whose indices
/// keep the rules of their fields, lie within one another and lead into the cells.
pub fn one_kind_is_of_all_indices()
    ensures { OneKindIsOfAll }
{}
