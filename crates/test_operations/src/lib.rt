//! Worked examples of the fifteen operations through their kit, as tests. The expected values were worked
//! out by hand or by a program of its own, none by the kit.
#![tactic(auto)]

#[cfg(test)]
mod areas;
#[cfg(test)]
mod cases;
#[cfg(test)]
mod examples;
#[cfg(test)]
mod shown;
