// What the programs write and how they end. The expected texts were written by hand.
mod failing;
mod of_pairboard;
mod of_pairtext;

use crate::ended::Ended;
use std::alloc::AllocError;
use std::process::Abort;
use std::test::Fail;

// A run ended with this output, message and status.
fn check_ended(
    rt: &impl Abort,
    ended: Result<Ended, AllocError>,
    output: &[u8],
    message: &str,
    status: u8,
) -> Result<(), Fail> {
    let ended = ended?;
    assert_eq!(rt; ended.message.as_str(), message);
    assert_eq!(rt; ended.output.as_slice(), output);
    assert_eq!(rt; ended.status, status);
    Ok(())
}
