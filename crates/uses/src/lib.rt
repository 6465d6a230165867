//! The examples of the crates' pages, each as it stands there, proved and run.
#![tactic(auto)]

#[cfg(test)]
mod counts;
#[cfg(test)]
mod engines;
#[cfg(test)]
mod games;
#[cfg(test)]
mod listings;
#[cfg(test)]
mod patterns;
#[cfg(test)]
mod shares;
#[cfg(test)]
mod tables;
