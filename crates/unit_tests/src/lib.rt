#![tactic(auto)]

// Tests of the unit: of page forms, plans and addresses; of requests by real address and of the marks that they leave; of
// requests by effective address, with what keys and lock bits permit, which exceptions refusals raise, what the look-aside
// buffers keep, what purges leave of it, and where the accesses land; of what is granted; and of the twenty trials. What each
// test expects is worked out by hand from the rule that its comment states. Where only the refusal of an answer is checked, it
// stands by its number, 0 where there is none: most of these cases are rows of numbers that are read against the list of
// refusals, and a name would be no plainer there. Where a whole answer is compared, it is a `Refusal`.
//
// Helpers take the runtime, the form, the unit and the storage one by one: a struct of them would be made at each call and taken
// apart in each helper. Most tests call one helper in one form and then in the other, and cases and constants of both forms stand
// side by side. Loops go over the numbers of pages, registers and words, which are what a unit is asked by, or repeat a request.
// The modules are listed as in each crate of tests.
#[cfg(test)]
mod addresses;
#[cfg(test)]
mod buffers;
#[cfg(test)]
mod edges;
#[cfg(test)]
mod forms;
#[cfg(test)]
mod grants;
#[cfg(test)]
mod keys;
#[cfg(test)]
mod locks;
#[cfg(test)]
mod on_boards;
#[cfg(test)]
mod order;
#[cfg(test)]
mod plan;
#[cfg(test)]
mod purges;
#[cfg(test)]
mod raising;
#[cfg(test)]
mod real_marks;
#[cfg(test)]
mod real_on_boards;
#[cfg(test)]
mod real_requests;
#[cfg(test)]
mod registers;
#[cfg(test)]
mod support;
#[cfg(test)]
mod tables;
#[cfg(test)]
mod translated_on_boards;
#[cfg(test)]
mod trial_answers;
#[cfg(test)]
mod trials_on_boards;
