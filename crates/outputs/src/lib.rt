//! What is written at the start of an output, which is memory that the caller lends.
#![tactic(auto)]

ghost use Rattle.outputs.specs.Outputs.{Writes};

use links::{Layer, Refusal, Refused};

/// Writes bytes at the start of an output, and answers how many they are. The stream refuses an
/// output that is too short with 14, and leaves it as it was.
pub fn write_start(bytes: &[u8], out: &mut [u8]) -> Result<usize, Refused>
    ensures { Writes bytes.now out.old result out.new }
{
    if out.len() < bytes.len() {
        return Err(Refusal::OutputTooShort.by(Layer::Stream));
    }
    out[..bytes.len()].copy_from_slice(bytes);
    Ok(bytes.len())
}
