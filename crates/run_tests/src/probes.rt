use crate::script::{Script, has_mark, loads, refused, stores};
use crate::support::{NOTHING, UNMARKED, at, up_to};
use lanes::width::Width;
use paging::form::PageForm;
use refusals::refusal::Refusal;
use std::alloc::AllocError;

// Requests for pages that are in the table, and of which no register permits a load. Each chain has one entry. Where protection
// refuses (13, 14), what the walk found is kept, so that the next request compares nothing. The pages are not marked.
pub(crate) fn add_probes<F: PageForm>(script: &mut Script) -> Result<(), AllocError> {
    for (register, page, entry, refusal) in [
        (6, 0x18, 13, Refusal::ProtectionRefused),
        (3, 0x19, 14, Refusal::LockRefused),
        (3, 0x1a, 15, Refusal::LockRefused),
    ] {
        let address = at::<F>(register, page, 4);
        script.add(&[
            loads(address, Width::Word, refused(refusal, up_to(1, entry))),
            stores(address, Width::Byte, 0, refused(refusal, NOTHING)),
            has_mark(u32::from(entry), UNMARKED),
        ])?;
    }
    let barred = refused(Refusal::SegmentBarred, NOTHING);
    let absent = refused(Refusal::SegmentAbsent, NOTHING);
    script.add(&[
        loads(at::<F>(9, 0x1e, 4), Width::Word, barred),
        loads(at::<F>(10, 0x12, 4), Width::Word, absent),
        has_mark(3, UNMARKED),
    ])
}
