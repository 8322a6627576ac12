//! Examples of what the crates below answer, proved safe and then run.
#![tactic(auto)]

#[cfg(test)]
mod claims;
#[cfg(test)]
mod every_book;
#[cfg(test)]
mod filters;
#[cfg(test)]
mod kinds;
#[cfg(test)]
mod lists;
#[cfg(test)]
mod makings;
#[cfg(test)]
mod matrix;
#[cfg(test)]
mod places;
#[cfg(test)]
mod refusals;
#[cfg(test)]
mod rows;
