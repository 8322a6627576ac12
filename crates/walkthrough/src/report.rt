// What calls answer and what the audit finds, in words for people to read.
use audit::audit;
use commands::Command;
use links::{Links, Refused};
use std::io;

/// A command, and what the call that it stands for answered.
pub fn answer(rt: &impl Print, command: Command, granted: Result<(), Refused>) -> io::Result<()> {
    match granted {
        Ok(()) => println!(rt; "{command}: ok"),
        Err(refused) => println!(rt; "{command}: {refused}"),
    }
}

/// What the audit says of these claims, in a line.
pub fn judge<L: Links>(rt: &impl Print, links: &L, claims: &[u16]) -> io::Result<()> {
    match audit(links, claims) {
        Ok(verdict) => println!(rt; "  {verdict}"),
        Err(refused) => println!(rt; "  refused with {}", refused.refusal.number()),
    }
}
