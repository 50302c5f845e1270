// The map has a layout of its own, so its `Display` is by hand, which is the form that std has for it.
ghost use Rattle.std.specs.Prelude.{◌≡◌};
ghost use Rattle.survey_report.specs.Map.{symbol_of};

use std::{fmt, io};
use unit_state::state::PageMark;

// A map of the storage, one character to a page: `.` for a page that was not used, `r` for one that was read, `w` for one that
// was written.
#[derive(Clone, Copy)]
pub struct PageMap<'a> {
    pub pages: &'a [PageMark],
}

fn symbol(mark: PageMark) -> char
    ensures { result ≡ symbol_of mark }
{
    match (mark.referenced, mark.changed) {
        (_, true) => 'w',
        (true, false) => 'r',
        (false, false) => '.',
    }
}

impl<'a> fmt::Display for PageMap<'a> {
    fn fmt<W: fmt::Write>(&self, f: &mut fmt::Formatter<W>) -> fmt::Result {
        for mark in self.pages {
            f.write_char(symbol(*mark))?;
        }
        Ok(())
    }
}

// Prints the map of the storage.
pub fn show_pages(rt: &impl Print, pages: &[PageMark]) -> io::Result<()> {
    let map = PageMap { pages };
    println!(rt; "  pages read (r), written (w), not used (.): {map}")
}
