// Elements that are so far from a pointer's.
ghost use Rattle.std.specs.Prelude.{◌≡◌, ◌+ℤ◌, pos, true, false, unsigned_abs, MatchOption};
ghost use Rattle.rc_core.specs.Source.{is_index};

/// The element so far from another one, where it is one of so many. A sum below 0 passes 2^63.
#[inline(always)]
pub fn element_at(index: u32, shift: i64, elements: u32) -> Option<u32>
    ensures { MatchOption result (is_index (pos index +ℤ shift) elements ≡ false) (λ i. (is_index (pos index +ℤ shift) elements ≡ true) × (i ≡ unsigned_abs (pos index +ℤ shift))) }
{
    let to = (index as u64).wrapping_add(shift.cast_unsigned());
    if to >= elements as u64 {
        return None;
    }
    Some(to as u32)
}
