// The virtual page that an entry of the page table belongs to.
#[derive(Clone, Copy, PartialEq, Eq, Debug)]
pub struct Tag {
    pub segment: u16,
    pub page: u32,
}

// What entry i says as anchor i: where the chain of virtual pages begins whose hash is i. The pointer is what its bits say also
// where the anchor is empty, and so no `Option`.
#[derive(Clone, Copy, PartialEq, Eq, Debug)]
pub struct Anchor {
    pub empty: bool,
    pub first: u16,
}

// How the chain goes on behind an entry. A last entry has a pointer too, which is what its bits say.
#[derive(Clone, Copy, PartialEq, Eq, Debug)]
pub struct Link {
    pub last: bool,
    pub next: u16,
}

// What entry i says of real page i: the virtual page that it holds, and who may use it. Each field is read whatever the others
// say.
#[derive(Clone, Copy, PartialEq, Eq, Debug)]
pub struct PageEntry {
    pub key: u8,
    pub tag: Tag,
    pub write: bool,
    pub transaction: u8,
    pub locks: u16,
}
