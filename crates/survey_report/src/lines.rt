// What is printed has a layout of its own, so each `Display` is by hand, which is the form that std has for it.
use paging::address::RealAddress;
use paging::form::PageForm;
use std::{fmt, io};
use survey_image::marker::Marker;
use survey_image::sites::SITES;

// A length that is kept in centimetres, in metres.
#[derive(Clone, Copy)]
pub struct Metres(pub u32);

impl fmt::Display for Metres {
    fn fmt<W: fmt::Write>(&self, f: &mut fmt::Formatter<W>) -> fmt::Result {
        let metres = self.0 / 100;
        let centimetres = self.0 % 100;
        write!(f, "{metres}.{centimetres:02}")
    }
}

// The name of a marker.
#[derive(Clone, Copy)]
pub struct MarkerName(pub Marker);

impl fmt::Display for MarkerName {
    fn fmt<W: fmt::Write>(&self, f: &mut fmt::Formatter<W>) -> fmt::Result {
        // each byte is a character, also one that is no text in UTF-8
        for character in &self.0.name {
            f.write_char(char::from(*character))?;
        }
        Ok(())
    }
}

// A marker as a line of the report shows it.
#[derive(Clone, Copy)]
pub struct MarkerLine(pub Marker);

impl fmt::Display for MarkerLine {
    fn fmt<W: fmt::Write>(&self, f: &mut fmt::Formatter<W>) -> fmt::Result {
        let name = MarkerName(self.0);
        let easting = Metres(self.0.easting);
        let northing = Metres(self.0.northing);
        write!(f, "{name}  easting {easting}  northing {northing}")
    }
}

// Prints the marker at each site, with the page that its coordinates came from.
pub fn show_markers<F: PageForm>(rt: &impl Print, markers: &[Marker]) -> io::Result<()> {
    for (site, marker) in SITES.iter().zip(markers) {
        let coordinates = RealAddress {
            number: u32::from(site.address) + 8,
        };
        let page = coordinates.page::<F>();
        let line = MarkerLine(*marker);
        println!(rt; "  page {page:2}  {line}")?;
    }
    Ok(())
}
