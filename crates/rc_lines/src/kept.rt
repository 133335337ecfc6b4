// The locals that keep operands, found by keys.
ghost use Rattle.std.specs.Prelude.{◌≡◌, ◌<◌, ℕ, List, map};
ghost use Rattle.std.specs.List.{AllByRecursion as Every};
ghost use Rattle.rc_core.specs.Types.{Ty};
ghost use Rattle.rc_emission.specs.KeptOperands.{Kept, kept_at, same_kept, place_in};
ghost use Rattle.rc_scope.specs.Names.{number_of};
ghost use Rattle.rc_lines.specs.Keys.{kept_key, HasKey};
ghost use Rattle.rc_lines.specs.Keyed.{key_of};

/// The number of an operand's key among the keys of operands is its place among the operands: each
/// has a key of its own, where heights and the numbers of structs are such as a program in memory has.
pub fn keys_number_what_is_kept()
    ensures { (table : List Kept) (k : Kept) → Every HasKey table → HasKey k → number_of (map key_of table) (key_of k) ≡ place_in same_kept table k }
{}
