// The numbers of a page form: the length of a page and of a line in bytes, the width of a page number in bits, and the
// highest number that the base of the page table may have.
#[derive(Clone, Copy)]
pub struct PageGeometry {
    pub page: u32,
    pub line: u32,
    pub width: u32,
    pub highest: u32,
}
