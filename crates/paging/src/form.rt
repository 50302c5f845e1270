ghost use Rattle.std.specs.Prelude.{◌≡◌, ℕ, ◌+◌, ◌*◌, ◌^◌, ◌⊎◌};
ghost use Rattle.paging.specs.declared.geometry.PageGeometry.{PageGeometry};
ghost use Rattle.std.proofs.Common.{rules};

use crate::geometry::PageGeometry;

// How virtual and real storage is cut into pages. The constants are the form's numbers, `sizes` says what they are, and
// `geometry` hands them on.
pub trait PageForm {
    const PAGE_BYTES: u32;

    const LINE_BYTES: u32;

    const NUMBER_BITS: u32;

    const HIGHEST_BASE: u32;

    ghost sizes: { PageGeometry };

    // Each form has a body of its own: one body for all would need each constant as a ghost member too and a law that ties
    // `sizes` to them, so a form would state its numbers three times, and not twice.
    fn geometry() -> PageGeometry
        ensures { result ≡ sizes };

    // a page number has 16 or 17 bits
    ghost wide: { (sizes.width ≡ 16) ⊎ (sizes.width ≡ 17) };

    // a page is 16 lines
    ghost lines: { sizes.page ≡ 16 * sizes.line };

    // page length times the number of page numbers is the length of a segment
    ghost whole: { sizes.page * 2 ^ sizes.width ≡ 2 ^ 28 };

    // there are as many base numbers as a page has units of 16 bytes
    ghost bases: { (sizes.highest + 1) * 16 ≡ sizes.page };
}

// Pages of 2,048 bytes.
#[derive(Clone, Copy)]
pub struct Form2K;

// Pages of 4,096 bytes.
#[derive(Clone, Copy)]
pub struct Form4K;

impl PageForm for Form2K {
    const PAGE_BYTES: u32 = 2048;

    const LINE_BYTES: u32 = 128;

    const NUMBER_BITS: u32 = 17;

    const HIGHEST_BASE: u32 = 127;

    ghost sizes = { record { page = 2048; line = 128; width = 17; highest = 127 } };

    ghost wide = { Prim.search rules };

    ghost lines = { Prim.search rules };

    ghost whole = { Prim.search rules };

    ghost bases = { Prim.search rules };

    fn geometry() -> PageGeometry {
        PageGeometry {
            page: Self::PAGE_BYTES,
            line: Self::LINE_BYTES,
            width: Self::NUMBER_BITS,
            highest: Self::HIGHEST_BASE,
        }
    }
}

impl PageForm for Form4K {
    const PAGE_BYTES: u32 = 4096;

    const LINE_BYTES: u32 = 256;

    const NUMBER_BITS: u32 = 16;

    const HIGHEST_BASE: u32 = 255;

    ghost sizes = { record { page = 4096; line = 256; width = 16; highest = 255 } };

    ghost wide = { Prim.search rules };

    ghost lines = { Prim.search rules };

    ghost whole = { Prim.search rules };

    ghost bases = { Prim.search rules };

    fn geometry() -> PageGeometry {
        PageGeometry {
            page: Self::PAGE_BYTES,
            line: Self::LINE_BYTES,
            width: Self::NUMBER_BITS,
            highest: Self::HIGHEST_BASE,
        }
    }
}
