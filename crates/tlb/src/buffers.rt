use page_table::entry::PageEntry;

// A copy of a page table entry that a walk found: the number of its real page, and what it says of it.
#[derive(Clone, Copy, PartialEq, Eq, Debug)]
pub struct Translation {
    pub entry: u16,
    pub page: PageEntry,
}

// One of the two entries of a congruence class.
#[derive(Clone, Copy, PartialEq, Eq, Debug)]
pub enum Way {
    First,
    Second,
}

// A congruence class: two entries, each of them valid or not, and which one was used last. Two by design, so an array.
#[derive(Clone, Copy)]
pub struct Class {
    pub ways: [Option<Translation>; 2],
    pub used_last: Way,
}

// The look-aside buffers: a class for each value of the lowest four bits of a page number. The machine has these sixteen, and a
// unit takes no memory from a heap, so an array.
#[derive(Clone, Copy)]
pub struct Buffers {
    pub classes: [Class; 16],
}
