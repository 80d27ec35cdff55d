//! Chains of tiles and tables of levels over them: small examples, and calls beside a plain list of names.
#![tactic(auto)]

#[cfg(test)]
mod check;
#[cfg(test)]
mod handlers;
#[cfg(test)]
mod levels;
#[cfg(test)]
mod pages;
#[cfg(test)]
mod plain;
#[cfg(test)]
mod play;
#[cfg(test)]
mod steps;
#[cfg(test)]
mod tests;
