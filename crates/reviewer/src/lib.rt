// Every entry once, for C to call. Nothing is kept between two calls, no function asks anything of its caller, and each states all lent
// memory after it.
#![tactic(auto)]

mod books;
mod reporting;
mod reviews;
mod slices;
mod state;
mod verdict;
mod words;
