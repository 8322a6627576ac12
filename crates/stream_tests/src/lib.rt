//! Examples of what the commands, their texts and the play of a stream answer, proved safe and then
//! run.
#![tactic(auto)]

#[cfg(test)]
mod bytes;
#[cfg(test)]
mod playing;
#[cfg(test)]
mod sessions;
#[cfg(test)]
mod steps;
#[cfg(test)]
mod texts;
#[cfg(test)]
mod two_boards;
