ghost use Rattle.std.specs.Prelude.{◌≡◌, ◌^◌, ◌<◌};
ghost use Rattle.paging.specs.Address.{register_of, offset_of, page_of, place_in_page, line_of};

use crate::form::PageForm;

// What the processor puts out: four bits that name a segment register, and an offset of 28 bits.
#[derive(Clone, Copy, PartialEq, Eq, Default, Debug)]
pub struct EffectiveAddress {
    pub number: u32,
}

// A segment ID of 12 bits and an offset of 28 bits.
#[derive(Clone, Copy)]
pub struct VirtualAddress {
    pub segment: u16,
    pub offset: u32,
    ghost narrow: { segment < 2 ^ 12 },
    ghost short: { offset < 2 ^ 28 },
}

// The number of a byte of storage.
#[derive(Clone, Copy, PartialEq, Eq, Debug)]
pub struct RealAddress {
    pub number: u32,
}

impl EffectiveAddress {
    // The number of the segment register.
    pub fn register(self) -> u32
        ensures is { result ≡ register_of self.number }
        ensures low { result < 16 }
    {
        self.number >> 28
    }

    // The offset in the segment.
    pub fn offset(self) -> u32
        ensures { result ≡ offset_of self.number }
    {
        self.number % (1 << 28)
    }
}

impl VirtualAddress {
    pub fn page_number<F: PageForm>(self) -> u32
        ensures is { result ≡ page_of F.PageForm.sizes self.offset }
        ensures narrow { result < 2 ^ F.PageForm.sizes.width }
    {
        self.offset / F::geometry().page
    }

    pub fn place_in_page<F: PageForm>(self) -> u32
        ensures { result ≡ place_in_page F.PageForm.sizes self.offset }
    {
        self.offset % F::geometry().page
    }

    pub fn line<F: PageForm>(self) -> u32
        ensures is { result ≡ line_of F.PageForm.sizes self.offset }
        ensures low { result < 16 }
    {
        let form = F::geometry();
        self.offset % form.page / form.line
    }
}

impl RealAddress {
    pub fn page<F: PageForm>(self) -> u32
        ensures { result ≡ page_of F.PageForm.sizes self.number }
    {
        self.number / F::geometry().page
    }
}
