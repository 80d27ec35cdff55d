//! Worked graphs of the fifteen operations: commits, undos and redos, plans, and the same and small images by the plain
//! program. All expected values were worked out from the definitions, none by either program.
#![tactic(auto)]

#[cfg(test)]
mod beside;
#[cfg(test)]
mod briefs;
#[cfg(test)]
mod damages;
#[cfg(test)]
mod histories;
#[cfg(test)]
mod plain_edits;
#[cfg(test)]
mod plain_renders;
#[cfg(test)]
mod plans;
#[cfg(test)]
mod refusals;
#[cfg(test)]
mod small_images;
#[cfg(test)]
mod steps;
#[cfg(test)]
mod trial;
#[cfg(test)]
mod values;
