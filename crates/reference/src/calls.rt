//! The calls that bytes stand for: one byte for the kind of call, then each load in two bytes, the
//! high one first.
ghost use Rattle.std.specs.Prelude.{◌≡◌, ◌<◌, ◌≤◌, length, IfSome, IfOk, OnOk, OnErr};

use crate::pairing::Pairing;
use links::{Layer, Refusal, Refused};
use std::alloc::AllocError;

/// A call on a board, with its loads.
#[derive(Clone, Copy, PartialEq, Eq, Debug)]
pub enum Call {
    Link(u16, u16),
    Unlink(u16, u16),
    Withdraw(u16),
    Depart(u16),
    Partner(u16),
}

/// A call, and the place after its bytes.
#[derive(Clone, Copy, PartialEq, Eq, Debug)]
pub struct CallAt {
    /// The call.
    pub call: Call,
    /// The place after its bytes.
    pub next: usize,
}

impl Call {
    // How many bytes the call has.
    fn size(self) -> usize
        ensures low { 3 ≤ result }
        ensures high { result ≤ 5 }
    {
        match self {
            Call::Link(..) | Call::Unlink(..) => 5,
            Call::Withdraw(_) | Call::Depart(_) | Call::Partner(_) => 3,
        }
    }

    // The byte at an index of the call; past its end there are zeros.
    fn byte(self, index: usize) -> u8 {
        let (kind, a, b) = match self {
            Call::Link(a, b) => (1, a, b),
            Call::Unlink(a, b) => (2, a, b),
            Call::Withdraw(a) => (3, a, 0),
            Call::Depart(a) => (4, a, 0),
            Call::Partner(a) => (5, a, 0),
        };
        match index {
            0 => kind,
            1 => (a / 256) as u8,
            2 => (a % 256) as u8,
            3 => (b / 256) as u8,
            4 => (b % 256) as u8,
            _ => 0,
        }
    }

    /// Writes the bytes of the call at the start of an output, and answers how many they are.
    pub fn write(self, out: &mut [u8]) -> Result<usize, Refused>
        ensures within { IfOk result (λ n. n ≤ length out.old) }
        ensures refused { OnErr result (out.new ≡ out.old) }
    {
        let size = self.size();
        if out.len() < size {
            return Err(Refusal::OutputTooShort.by(Layer::Stream));
        }
        for (index, byte) in out[..size].iter_mut().enumerate() {
            *byte = self.byte(index);
        }
        Ok(size)
    }
}

// The load whose high byte stands at a place; past the end there are zeros.
fn load_at(stream: &[u8], place: usize) -> u16 {
    let high = stream.get(place).copied().unwrap_or(0);
    let low = stream.get(place.saturating_add(1)).copied().unwrap_or(0);
    u16::from(high) * 256 + u16::from(low)
}

/// The call at a place of a stream; none at or past its end.
pub fn read(stream: &[u8], place: usize) -> Result<Option<CallAt>, Refused>
    ensures short { OnOk result (length stream.now ≤ 65536) }
    ensures onward { IfOk result
        (λ found. IfSome found (λ at. (place < at.next) × (at.next ≤ length stream.now))) }
{
    if stream.len() > 65536 {
        return Err(Refusal::WrongLength.by(Layer::Stream));
    }
    if place >= stream.len() {
        return Ok(None);
    }
    let a = load_at(stream, place + 1);
    let b = load_at(stream, place + 3);
    let call = match stream[place] {
        1 => Call::Link(a, b),
        2 => Call::Unlink(a, b),
        3 => Call::Withdraw(a),
        4 => Call::Depart(a),
        5 => Call::Partner(a),
        _ => return Err(Refusal::UnknownCommand.by(Layer::Stream)),
    };
    let next = place + call.size();
    if next > stream.len() {
        return Err(Refusal::CutShort.by(Layer::Stream));
    }
    Ok(Some(CallAt { call, next }))
}

/// What a call answers: the partner that was asked for, or a refusal.
pub type Answer = Result<Option<usize>, Refused>;

impl Pairing {
    /// Makes a call. An error where memory runs out.
    pub fn make(&mut self, call: Call) -> Result<Answer, AllocError>
        ensures { IfOk result (λ answer. OnErr answer (self.new ≡ self.old)) }
    {
        let granted = match call {
            Call::Link(a, b) => self.link(usize::from(a), usize::from(b))?,
            Call::Unlink(a, b) => self.unlink(usize::from(a), usize::from(b)),
            Call::Withdraw(a) => self.withdraw(usize::from(a)),
            Call::Depart(a) => self.depart(usize::from(a)),
            Call::Partner(a) => return Ok(self.partner(usize::from(a))),
        };
        Ok(granted.map(|()| None))
    }
}
