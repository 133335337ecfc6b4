// The frame of an instruction.
ghost use Rattle.std.specs.Prelude.{◌≡◌, ◌<◌, ◌≤◌, ℕ, Bool, false, length, MatchOption};
ghost use Rattle.rc_facts.specs.declared.fact.Fact.{Fact};
ghost use Rattle.rc_claims.specs.Bits.{claims};
ghost use Rattle.rc_claims.specs.Claims.{frame_facts, AreInOrder};
ghost use Rattle.rc_image_claims.specs.Searching.{Splits};

use rc_claims::Frame;

/// Where the first of the frames stands whose instruction isn't before that one.
fn first_from(frames: &[Frame], at: u32) -> usize
    requires { AreInOrder 0 frames.now }
    ensures { Splits frames.now at result }
{
    let mut low = 0;
    let mut high = frames.len();
    while low < high {
        let middle = low + (high - low) / 2;
        if frames[middle].at < at {
            low = middle + 1;
        } else {
            high = middle;
        }
    }
    low
}

/// The frame of that instruction, if there is one.
pub fn frame_at(frames: &[Frame], at: u32) -> Option<&Frame>
    requires { AreInOrder 0 frames.now }
    ensures { MatchOption result ((n : ℕ) (fact : Fact) → frame_facts n frames.now at fact ≡ false) (λ frame. (n : ℕ) (fact : Fact) → frame_facts n frames.now at fact ≡ claims n frame.now.facts fact) }
{
    let place = first_from(frames, at);
    match frames.get(place) {
        Some(frame) => if frame.at == at { Some(frame) } else { None },
        None => None,
    }
}
