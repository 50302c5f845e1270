ghost use Rattle.survey_image.specs.Layout.{marker_block};

use crate::block::{AsBlock, Block};

// A survey marker: a name of eight characters, easting and northing in centimetres. A name always has its eight bytes, which need
// be no text, so an array.
#[derive(Clone, Copy, PartialEq, Eq)]
pub struct Marker {
    pub name: [u8; 8],
    pub easting: u32,
    pub northing: u32,
}

// Where in an image of 64 KiB a marker stands, by real address.
#[derive(Clone, Copy)]
pub struct Site {
    pub address: u16,
    pub marker: Marker,
}

// The words of a marker.
impl AsBlock for Site {
    ghost block = { marker_block };

    fn block(&self) -> Block {
        let [a, b, c, d, e, f, g, h] = self.marker.name;
        Block {
            word: u32::from(self.address) / 4,
            words: [
                u32::from_be_bytes([a, b, c, d]),
                u32::from_be_bytes([e, f, g, h]),
                self.marker.easting,
                self.marker.northing,
            ],
        }
    }
}
