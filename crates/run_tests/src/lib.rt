#![tactic(auto)]

// Tests of whole runs: the same calls on two storages of every two makes, in both page forms, and the registers that are written
// before them. What each call is to answer stands beside it, and what each word is to hold at the end follows from its number;
// both are worked out by hand from the rules that the comments state. Segment IDs and the numbers of virtual pages are
// hexadecimal there, those of registers, of real pages and so of entries decimal. Refusals stand in the lists by name and in the
// comments by number.
//
// Helpers take the runtime, the heap, the form and the storages one by one: a struct of them would be made at each call and taken
// apart in each helper.
#[cfg(test)]
mod altered_table;
#[cfg(test)]
mod checking;
#[cfg(test)]
mod every_two;
#[cfg(test)]
mod long_stop;
#[cfg(test)]
mod no_run;
#[cfg(test)]
mod out_of_reach;
#[cfg(test)]
mod probes;
#[cfg(test)]
mod register_writes;
#[cfg(test)]
mod rounds;
#[cfg(test)]
mod script;
#[cfg(test)]
mod support;
#[cfg(test)]
mod tables;
#[cfg(test)]
mod whole_runs;
#[cfg(test)]
mod words_left;
#[cfg(test)]
mod world;
