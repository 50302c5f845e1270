#![tactic(auto)]

// Tests of the storage boards through their public functions. What they expect is worked out by hand from the rules. What a write
// or a fill answers is the number of its refusal, 0 where there is none: most of these cases are rows of numbers that are read
// against the list of refusals, and a name would be no plainer there. A read that is refused has a `Refusal`. The two
// pairs are tested by like steps, on cases of their own, since a word lies elsewhere in each. The bytes that a board has to leave
// are written out in each test, where they can be seen. The modules are listed as in each crate of tests.
#[cfg(test)]
mod cases;
#[cfg(test)]
mod dump;
#[cfg(test)]
mod interleaved;
#[cfg(test)]
mod limit;
#[cfg(test)]
mod ram;
#[cfg(test)]
mod stacked;
