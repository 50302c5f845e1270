use crate::tables::is_2k;
use lanes::width::Width;
use mmu::unit::MemoryUnit;
use paging::address::{EffectiveAddress, RealAddress};
use paging::draft::Draft;
use paging::form::PageForm;
use paging::plan::SettledPlan;
use protection::register::SegmentRegister;
use refusals::refusal::Refusal;
use std::alloc::{AllocError, Global};
use std::process::Abort;
use std::test::Fail;
use storage::words::{ReadStorage, Storage};
use unit_state::answer::{Access, Compared, Fault};
use unit_state::answers::Answer;
use unit_state::state::PageMark;

// The marks that a page can have.
pub(crate) const UNMARKED: PageMark = PageMark {
    referenced: false,
    changed: false,
};

pub(crate) const LOADED: PageMark = PageMark {
    referenced: true,
    ..UNMARKED
};

pub(crate) const STORED: PageMark = PageMark {
    changed: true,
    ..LOADED
};

// The bytes of a storage of 64 KiB.
pub(crate) fn zeros(heap: Global) -> Result<Vec<u8>, AllocError> {
    vec![in heap; 0u8; 65536]
}

// A plan that has to settle. table_tests has these lines too: a third crate for them would need a contract and a place of its
// own.
pub(crate) fn plan_of<F: PageForm + Copy>(
    form: F,
    exponent: u32,
    base: u32,
) -> Result<SettledPlan<F>, Fail> {
    let draft = Draft {
        form,
        exponent,
        base,
    };
    draft
        .settle()
        .map_err(|refused| Fail::from(refused.refusal))
}

// A unit just powered on.
pub(crate) fn unit_of<F: PageForm + Copy>(
    form: F,
    exponent: u32,
    base: u32,
) -> Result<MemoryUnit<F>, Fail> {
    Ok(MemoryUnit::power_on(plan_of(form, exponent, base)?))
}

pub(crate) const ABSENT: SegmentRegister = SegmentRegister {
    present: false,
    barred: false,
    segment: 0,
    special: false,
    key: false,
};

pub(crate) fn ordinary(segment: u16, key: bool) -> SegmentRegister {
    SegmentRegister {
        present: true,
        segment,
        key,
        ..ABSENT
    }
}

pub(crate) fn special(segment: u16) -> SegmentRegister {
    SegmentRegister {
        special: true,
        ..ordinary(segment, true)
    }
}

pub(crate) fn barred(segment: u16) -> SegmentRegister {
    SegmentRegister {
        barred: true,
        ..ordinary(segment, true)
    }
}

pub(crate) fn real_at(number: u32) -> RealAddress {
    RealAddress { number }
}

// The effective address of a place in a virtual page, through a segment register. The place has 11 bits in 2K, 12 in 4K.
pub(crate) fn at<F: PageForm>(register: u32, page: u32, place: u32) -> EffectiveAddress {
    let offset = if is_2k::<F>() {
        page << 11 | place
    } else {
        page << 12 | place
    };
    EffectiveAddress {
        number: register << 28 | offset,
    }
}

// What a request compares by real address, on a hit of the look-aside buffers, and before any comparison.
pub(crate) const NOTHING: Compared = Compared {
    count: 0,
    last: None,
};

// By a walk of so many entries, up to the one that it compares last.
pub(crate) fn up_to(count: u16, entry: u16) -> Compared {
    Compared {
        count,
        last: Some(entry),
    }
}

// By a walk that finds the entry at the first place of its chain.
pub(crate) fn first_is(entry: u16) -> Compared {
    up_to(1, entry)
}

pub(crate) fn accepted(value: u32, compared: Compared) -> Answer {
    Ok(Access { value, compared })
}

pub(crate) fn refused(refusal: Refusal, compared: Compared) -> Answer {
    Err(Fault { refusal, compared })
}

// What a request does: it loads, or it stores a value. An `Option` of the value would not say that none of it is a load.
#[derive(Clone, Copy)]
pub(crate) enum Step {
    Load,
    Store(u32),
}

// One match for each kind of address: a closure or a table of the two calls would be no plainer.
impl Step {
    pub(crate) fn by_effective<F: PageForm, S: Storage>(
        self,
        unit: &mut MemoryUnit<F>,
        storage: &mut S,
        address: EffectiveAddress,
        width: Width,
    ) -> Answer {
        match self {
            Step::Load => unit.load(storage, address, width),
            Step::Store(value) => unit.store(storage, address, width, value),
        }
    }

    pub(crate) fn by_real<F: PageForm, S: Storage>(
        self,
        unit: &mut MemoryUnit<F>,
        storage: &mut S,
        address: RealAddress,
        width: Width,
    ) -> Answer {
        match self {
            Step::Load => unit.load_real(storage, address, width),
            Step::Store(value) => unit.store_real(storage, address, width, value),
        }
    }
}

// Checks every page of a unit: the listed ones have the marks beside them, all others none.
pub(crate) fn only_marked<F: PageForm>(
    rt: &impl Abort,
    unit: &MemoryUnit<F>,
    pages: u32,
    listed: &[(u32, PageMark)],
) {
    for page in 0..pages {
        let mark = listed
            .iter()
            .find(|one| one.0 == page)
            .map_or(UNMARKED, |one| one.1);
        assert_eq!(rt; unit.page_mark(page), Ok(mark), "page {page}");
    }
}

// All words of a storage. By a loop, since a word can be refused and so can room for it.
pub(crate) fn words_of<S: ReadStorage>(heap: Global, storage: &S) -> Result<Vec<u32>, Fail> {
    let mut words = Vec::new(heap);
    for n in 0..storage.count() {
        words.push(storage.read(n)?)?;
    }
    Ok(words)
}
