//! Roots of buffers, views of them, and tables of buffers, over chains: small examples, and calls beside plain lists of
//! bytes.
#![tactic(auto)]

#[cfg(test)]
mod calls;
#[cfg(test)]
mod check;
#[cfg(test)]
mod comparisons;
#[cfg(test)]
mod examples;
#[cfg(test)]
mod plain;
#[cfg(test)]
mod refusals;
#[cfg(test)]
mod roots;
#[cfg(test)]
mod tests;
