//! Small rows through each kernel, and small images through each call of patches, as tests. What is expected was worked
//! out by hand, or by programs of their own.
#![tactic(auto)]

#[cfg(test)]
mod blends;
#[cfg(test)]
mod check;
#[cfg(test)]
mod halved_cases;
#[cfg(test)]
mod patches;
#[cfg(test)]
mod patches_of_lengths;
#[cfg(test)]
mod read_cases;
#[cfg(test)]
mod reads;
#[cfg(test)]
mod row_lengths;
#[cfg(test)]
mod rows;
