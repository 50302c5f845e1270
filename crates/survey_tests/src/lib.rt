#![tactic(auto)]

// Tests of the two checks of an image: that they succeed, and find the markers that were drawn.
#[cfg(test)]
mod by_calls;
#[cfg(test)]
mod by_real_loads;
#[cfg(test)]
mod support;
