//! Steps of a stream, each with the line that it answers.
ghost use Rattle.std.specs.Prelude.{◌≡◌, IfOk, OnErr};

use crate::calls::{Answer, Call, read};
use crate::pairing::Pairing;
use links::{Layer, Refusal, Refused};
use std::alloc::{AllocError, Global};

/// The line of a step, and the place after it.
#[derive(Debug, Drop)]
pub struct Step {
    /// The line, with its line feed.
    pub line: String,
    /// The place after the step.
    pub next: usize,
}

// The line for what a call answered whose first byte stands at a place.
fn line(
    alloc: Global,
    call: Option<Call>,
    answer: Answer,
    place: usize,
) -> Result<String, AllocError> {
    match (answer, call) {
        (Err(Refused { refusal, layer }), _) => {
            format!(in alloc; "no {:02} {} {place}\n", refusal.number(), layer.name())
        }
        (Ok(Some(partner)), _) => format!(in alloc; "with {partner}\n"),
        (Ok(None), Some(Call::Partner(_))) => String::from_str(alloc, "alone\n"),
        (Ok(None), _) => String::from_str(alloc, "ok\n"),
    }
}

impl Pairing {
    /// A step with an output of `room` bytes.
    pub fn step(
        &mut self,
        alloc: Global,
        stream: &[u8],
        place: usize,
        room: usize,
    ) -> Result<Result<Step, Refused>, AllocError>
        ensures { IfOk result (λ step. OnErr step (self.new ≡ self.old)) }
    {
        if stream.len() > 65536 {
            return Ok(Err(Refusal::WrongLength.by(Layer::Stream)));
        }
        if room < 19 {
            return Ok(Err(Refusal::OutputTooShort.by(Layer::Stream)));
        }
        let (line, next) = match read(stream, place) {
            Ok(None) => (String::new(alloc), place),
            Ok(Some(at)) => {
                let answer = self.make(at.call)?;
                (line(alloc, Some(at.call), answer, place)?, at.next)
            }
            Err(refused) => (line(alloc, None, Err(refused), place)?, place),
        };
        Ok(Ok(Step { line, next }))
    }

    /// A line for each pair, in an output of `room` bytes: the lower load first, in rising order.
    pub fn pair_lines(
        &self,
        alloc: Global,
        room: usize,
    ) -> Result<Result<String, Refused>, AllocError> {
        if room < self.pair_count().saturating_mul(8) {
            return Ok(Err(Refusal::OutputTooShort.by(Layer::Stream)));
        }
        let mut lines = String::new(alloc);
        for a in 0..self.book().size() {
            if let Some(b) = self.partner_of(a)
                && a < b
            {
                write!(lines, "{a} {b}\n")?;
            }
        }
        Ok(Ok(lines))
    }
}
