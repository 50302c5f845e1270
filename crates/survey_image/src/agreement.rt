ghost use Rattle.std.specs.Prelude.{◌≡◌, Decides};

use crate::marker::Marker;

// Whether two checks found the same markers.
#[tactic(auto, using(crate::proofs::Sameness::sameness))]
pub fn agree(one: &[Marker], other: &[Marker]) -> bool
    ensures { Decides result (one.now ≡ other.now) }
{
    one == other
}
