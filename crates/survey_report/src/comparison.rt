ghost use Rattle.std.specs.Prelude.{◌≡◌, true, IfOk};

use std::io;
use survey_image::agreement::agree;
use survey_image::marker::Marker;
use unit_state::state::PageMark;

// What a check saw on a board.
#[derive(Clone, Copy)]
pub struct Seen<'a> {
    pub markers: &'a [Marker],
    pub pages: &'a [PageMark],
}

// Says whether a board has the markers and the pages that the RAM board has, and prints what it has not.
pub fn compare(rt: &impl Print, board: &str, ram: &Seen, found: &Seen) -> io::Result<bool>
    ensures { IfOk result (λ same. (same ≡ true → ram.now.markers.now ≡ found.now.markers.now)) }
{
    let same_markers = agree(ram.markers, found.markers);
    if !same_markers {
        println!(rt; "{board}: the markers are not those of the RAM board.")?;
        return Ok(false);
    }
    if ram.pages != found.pages {
        println!(rt; "{board}: the markers are those of the RAM board, the pages are not.")?;
        return Ok(false);
    }
    Ok(true)
}

// Prints whether the four boards agree.
pub fn show_agreement(rt: &impl Print, agree: bool) -> io::Result<()> {
    if agree {
        println!(rt; "The four boards agree.")
    } else {
        println!(rt; "The four boards do not agree: do not rely on these coordinates.")
    }
}
