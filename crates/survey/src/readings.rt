ghost use Rattle.std.specs.Prelude.{◌≡◌, IfOk};
ghost use Rattle.survey.specs.Markers.{marker_of};
ghost use Rattle.survey.specs.Readings.{value_of, Spelled, AllSpelled};

use crate::trouble::Trouble;
use runs::call::Reply;
use std::alloc::Global;
use survey_image::marker::Marker;

// The marker that four words spell.
pub(crate) fn spelled(first: u32, second: u32, easting: u32, northing: u32) -> Marker
    ensures { result ≡ marker_of first second easting northing }
{
    let [a, b, c, d] = first.to_be_bytes();
    let [e, f, g, h] = second.to_be_bytes();
    Marker {
        name: [a, b, c, d, e, f, g, h],
        easting,
        northing,
    }
}

// The value of a reply: only an accepted request has one.
pub fn value_of(reply: Reply) -> Result<u32, Trouble>
    ensures { result ≡ value_of reply }
{
    match reply {
        Reply::Request(Ok(access)) => Ok(access.value),
        Reply::Request(Err(fault)) => Err(Trouble::Refused(fault.refusal)),
        Reply::Exceptions(_) | Reply::Mark(_) | Reply::Cleared(_) => Err(Trouble::NoValue),
    }
}

// The marker that four replies spell, from the n-th on. A refused load, or a reply that is missing, is an error, never a zero.
pub fn marker_at(replies: &[Reply], n: usize) -> Result<Marker, Trouble>
    ensures { IfOk result (Spelled replies.now n) }
{
    let Some([name, rest_of_name, easting, northing, ..]) = replies.get(n..) else {
        return Err(Trouble::NoValue);
    };
    let first = value_of(*name)?;
    let second = value_of(*rest_of_name)?;
    let easting = value_of(*easting)?;
    let northing = value_of(*northing)?;
    Ok(spelled(first, second, easting, northing))
}

// The markers that the replies spell, four replies each, from the first reply on.
pub fn markers_in(heap: Global, replies: &[Reply], count: u8) -> Result<Vec<Marker>, Trouble>
    ensures { IfOk result (λ v. AllSpelled replies.now count v.items) }
{
    let mut markers = Vec::new(heap);
    // Not over `chunks_exact(4)` of `replies.get(..4 * count)`: tried, and the search gives up on the invariant of the loop,
    // since the words of a part have to be found again in the whole list. A load refused before a missing reply would not be the
    // error then.
    for j in 0..count {
        let marker = marker_at(replies, 4 * usize::from(j))?;
        markers.push(marker)?;
    }
    Ok(markers)
}
