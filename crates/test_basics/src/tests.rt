//! A file for each kind of call. Expected values were worked out by hand.

mod check;
mod jobs;
mod layouts;
mod options;
mod rectangles;
mod script_cases;
mod scripts;
mod tiles;
mod words;
mod workers;
