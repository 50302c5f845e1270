// Why a call refuses. Each reason keeps its number for good: notes of earlier restores cite it.
#[derive(Clone, Copy, PartialEq, Eq, Debug)]
pub enum Refusal {
    // a size exponent outside 16 to 24
    ExponentOutside = 1,
    // a base number above the page form's highest
    BaseTooHigh = 2,
    // a segment register above 15, or a segment ID above 4,095
    RegisterOutside = 3,
    // the storage is not as long as the plan says
    SizeDiffers = 4,
    // a value to be stored is too wide for its width
    ValueTooWide = 5,
    // the segment is not present
    SegmentAbsent = 6,
    // a real address at or beyond the end of the storage
    RealAddressOutside = 7,
    // the segment is barred to the processor
    SegmentBarred = 8,
    // the page table has no entry for the virtual page
    PageFault = 9,
    // 127 entries were compared, and the chain goes on
    LongSearch = 10,
    // a pointer that names no entry of the page table
    PointerOutside = 11,
    // as many entries were compared as the page table has, and the chain goes on
    EndlessChain = 12,
    // the key of the page does not permit the access
    ProtectionRefused = 13,
    // the transaction ID, the write bit or the lock bit does not permit the access
    LockRefused = 14,
    // a page that has no mark, since the plan has no such page
    PageMarkOutside = 15,
    // the word number is the storage's count of words or more
    WordOutside = 16,
    // a write mask above 15
    MaskTooWide = 17,
    // a list of pages that is not a directory; the old directory stays
    NotADirectory = 18,
}
