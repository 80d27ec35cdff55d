//! Worked examples of what sessions are made of, from below: caches of nodes' tiles, pictures made of strips, renders over
//! buffers, and sessions, over chains of which few tiles are in memory and disks that fail. What each answers was worked out
//! by hand, or is what the plain program says.
#![tactic(auto)]

#[cfg(test)]
mod caches;
#[cfg(test)]
mod renders;
#[cfg(test)]
mod sessions;
#[cfg(test)]
mod strips;
#[cfg(test)]
mod values;
