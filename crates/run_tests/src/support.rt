use exceptions::registers::{Causes, Exceptions};
use paging::address::EffectiveAddress;
use paging::draft::Draft;
use paging::form::PageForm;
use protection::register::SegmentRegister;
use unit_state::answer::Compared;
use unit_state::state::PageMark;

// unit_tests has lines like these too. A crate for so few would have contracts of its own.
pub(crate) const UNMARKED: PageMark = PageMark {
    referenced: false,
    changed: false,
};

pub(crate) const LOADED: PageMark = PageMark {
    referenced: true,
    ..UNMARKED
};

pub(crate) const STORED: PageMark = PageMark {
    changed: true,
    ..LOADED
};

pub(crate) const NO_CAUSES: Causes = Causes {
    segment_barred: false,
    page_fault: false,
    long_stop: false,
    protection: false,
    lock: false,
};

// None raised, and an address register that is not locked.
pub(crate) fn none_at(address: EffectiveAddress) -> Exceptions {
    Exceptions {
        causes: NO_CAUSES,
        multiple: false,
        load: false,
        address,
        locked: false,
    }
}

pub(crate) const ABSENT: SegmentRegister = SegmentRegister {
    present: false,
    barred: false,
    segment: 0,
    special: false,
    key: false,
};

pub(crate) fn ordinary(segment: u16, key: bool) -> SegmentRegister {
    SegmentRegister {
        present: true,
        segment,
        key,
        ..ABSENT
    }
}

pub(crate) fn special(segment: u16) -> SegmentRegister {
    SegmentRegister {
        special: true,
        ..ordinary(segment, true)
    }
}

pub(crate) fn barred(segment: u16) -> SegmentRegister {
    SegmentRegister {
        barred: true,
        ..ordinary(segment, false)
    }
}

pub(crate) fn absent(segment: u16) -> SegmentRegister {
    SegmentRegister { segment, ..ABSENT }
}

// The plan of all runs: 64 KiB, and a table in real page 0, from base number 1 on.
pub(crate) fn draft_of<F>(form: F) -> Draft<F> {
    Draft {
        form,
        exponent: 16,
        base: 1,
    }
}

pub(crate) fn is_2k<F: PageForm>() -> bool {
    F::geometry().page == 2048
}

// What differs in the two forms.
pub(crate) fn by_form<F: PageForm>(in_2k: u32, in_4k: u32) -> u32 {
    if is_2k::<F>() { in_2k } else { in_4k }
}

// The effective address of a place in a virtual page, through a segment register. The place has 11 bits in 2K, 12 in 4K.
pub(crate) fn at<F: PageForm>(register: u32, page: u32, place: u32) -> EffectiveAddress {
    let offset = by_form::<F>(page << 11, page << 12) | place;
    EffectiveAddress {
        number: register << 28 | offset,
    }
}

// The number of the first word of a real page: 512 words are a page of 2K and 1,024 one of 4K.
pub(crate) fn first_word<F: PageForm>(page: u32) -> u32 {
    by_form::<F>(page << 9, page << 10)
}

// What is compared on a hit of the look-aside buffers, and before any comparison.
pub(crate) const NOTHING: Compared = Compared {
    count: 0,
    last: None,
};

// What a walk compares: so many entries, and this one last.
pub(crate) fn up_to(count: u16, entry: u16) -> Compared {
    Compared {
        count,
        last: Some(entry),
    }
}

// What the first request for a page compares, and what a later one does, which the buffers answer.
pub(crate) fn walked_if(first: bool, entry: u16) -> Compared {
    if first { up_to(1, entry) } else { NOTHING }
}
