use boards::ram::RamBoard;
use std::alloc::Global;
use std::process::Abort;
use std::test::Fail;
use survey::on_boards::IMAGE_BYTES;
use survey_image::drawing::draw_all;
use survey_image::marker::Marker;
use survey_image::sites::SITES;

// An image with the twelve markers.
pub(crate) fn drawn_image(heap: Global) -> Result<Vec<u8>, Fail> {
    let mut image = vec![in heap; 0u8; IMAGE_BYTES]?;
    draw_all(&mut RamBoard::new(&mut image), &SITES)?;
    Ok(image)
}

// The first of the markers and the last, in centimetres.
const CHAPEL: Marker = Marker {
    name: *b"CHAPEL  ",
    easting: 348_211_725,
    northing: 543_188_640,
};

const HOHBERG: Marker = Marker {
    name: *b"HOHBERG ",
    easting: 348_505_268,
    northing: 543_055_514,
};

// The markers are those of the sites, in their order.
pub(crate) fn are_the_drawn(rt: &impl Abort, markers: &[Marker]) {
    assert_eq!(rt; markers.len(), 12);
    assert!(rt; markers[0] == CHAPEL);
    assert!(rt; markers[11] == HOHBERG);
    for (site, marker) in SITES.iter().zip(markers) {
        assert!(rt; site.marker == *marker);
    }
}
