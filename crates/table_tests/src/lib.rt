#![tactic(auto)]

// Tests of the page table: what the words of an entry say, and what a walk of the table answers, in both page forms. What each
// test expects is worked out by hand from the rule that its comment states. What a walk comes to has its refusal by its number, 0
// where the page is found: most of these cases are rows of numbers that are read against the list of refusals, and a name would
// be no plainer there. Where a whole outcome is compared, it is a `Refusal`.
//
// Each file sets its bytes and its board up itself: the board holds what the bytes lend, so no helper can give it back. Helpers
// take the runtime, the heap, the storage and the plan one by one, since some of them are written to and others are not. Cases of
// one page form stand beside those of the other, as the words differ. Loops go over the numbers of anchors and entries, which are
// places of the table and no items. The modules are listed as in each crate of tests.
#[cfg(test)]
mod ahead;
#[cfg(test)]
mod chains;
#[cfg(test)]
mod entries;
#[cfg(test)]
mod hashes;
#[cfg(test)]
mod limits;
#[cfg(test)]
mod pairs;
#[cfg(test)]
mod short;
#[cfg(test)]
mod support;
