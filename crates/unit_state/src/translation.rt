use page_table::walk::Compared;
use paging::address::RealAddress;
use tlb::buffers::Translation;

// Where a virtual page lies, and which table entries were compared to find it: none on a hit of the look-aside buffers.
#[derive(Clone, Copy)]
pub struct Located {
    pub translation: Translation,
    pub compared: Compared,
}

// The real address of a permitted request, its real page, and how that was found.
#[derive(Clone, Copy)]
pub struct Place {
    pub address: RealAddress,
    pub page: u16,
    pub compared: Compared,
}
