use lanes::width::Width;
use paging::form::PageForm;
use runs::call::Call;
use std::alloc::Global;
use survey::calls::marker_calls;
use survey_image::layout::effective_address;
use survey_image::sites::SITES;

// One marker is corrected and read again, and a store is made that is not permitted.
fn correction<F: PageForm>() -> [Call; 3] {
    let easting = SITES[1].address + 8;
    let corrected = 348_250_112;
    [
        Call::Store(effective_address::<F>(1, easting), Width::Word, corrected),
        Call::Load(effective_address::<F>(2, easting), Width::Word),
        Call::Store(effective_address::<F>(2, easting), Width::Word, corrected),
    ]
}

// The calls of a check: every marker is read, then comes the correction, and the exception registers are read.
pub fn check_calls<F: PageForm>(heap: Global) -> anyhow::Result<Vec<Call>> {
    let mut calls = marker_calls::<F>(heap, &SITES)?;
    for call in correction::<F>() {
        calls.push(call)?;
    }
    calls.push(Call::ReadExceptions)?;
    Ok(calls)
}

// The same calls, with a purge before each request of the correction. They stand there and not at the end, since a request after
// a purge searches the table again: by its count the replies show whether the purge was made.
pub fn purging_calls<F: PageForm>(heap: Global) -> anyhow::Result<Vec<Call>> {
    let corrected = effective_address::<F>(2, SITES[1].address);
    // the two registers hold one segment ID, so that each purge reaches what was loaded through the other
    let purges = [
        Call::PurgePage(corrected),
        Call::PurgeSegment(1),
        Call::PurgeAll,
    ];
    let mut calls = marker_calls::<F>(heap, &SITES)?;
    for (purge, request) in purges.iter().zip(correction::<F>()) {
        calls.push(*purge)?;
        calls.push(request)?;
    }
    calls.push(Call::ReadExceptions)?;
    Ok(calls)
}
