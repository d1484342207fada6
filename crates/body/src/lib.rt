// The bodies of stick table messages: fields, and the bodies of a switch and an acknowledgement, read from a lent slice; definitions and
// updates written.
#![tactic(auto)]

pub mod definition;
mod reader;
pub mod shape;
pub mod string_key;
pub mod times;
pub mod update;
pub mod update_data;
pub mod writing;

ghost use Rattle.std.specs.Prelude.{◌≡◌};
ghost use Rattle.body.specs.Fields.{failure_of};
ghost use Rattle.body.specs.Bodies.{switch_fields, acknowledgement_fields};

use crate::reader::BodyReader;
use wire::values::FieldError;

// Why a body can't be read: it ends before a field is whole; a field overflows or is out of range; a table's name isn't plain.
#[derive(Clone, Copy, Debug, PartialEq, Eq)]
pub enum Failure {
    Short,
    OutOfRange,
    NotPlain,
}

// A field that can't be read: why, and the position at which it starts.
#[derive(Clone, Copy, Debug, PartialEq, Eq)]
pub struct Fault {
    pub failure: Failure,
    pub start: usize,
}

// A part of a body: `len` bytes from `start` on.
#[derive(Clone, Copy)]
pub struct Span {
    pub start: usize,
    pub len: usize,
}

// How an integer on the wire fails is how the field does.
impl From<FieldError> for Failure {
    ghost from_gives = { λ e f. f ≡ failure_of e };

    fn from(e: FieldError) -> Failure {
        match e {
            FieldError::Short => Failure::Short,
            FieldError::OutOfRange => Failure::OutOfRange,
        }
    }
}

// ---- switch and acknowledgement

// The ID of a switch.
#[tactic(auto, unfolding(crate::specs::Bodies::switch_fields))]
pub fn read_switch(body: &[u8]) -> Result<(u32, usize), Fault>
    ensures { result ≡ switch_fields body.now }
{
    let mut r = BodyReader { body, at: 0 };
    let id = r.word()?;
    Ok((id, r.at))
}

// The fields of an acknowledgement.
#[derive(Clone, Copy)]
pub struct Acknowledged {
    pub id: u32,
    pub update: u32,
}

// The fields of an acknowledgement: its ID and its update ID.
#[tactic(auto, unfolding(crate::specs::Bodies::acknowledgement_fields))]
pub fn read_acknowledgement(body: &[u8]) -> Result<(Acknowledged, usize), Fault>
    ensures { result ≡ acknowledgement_fields body.now }
{
    let mut r = BodyReader { body, at: 0 };
    let id = r.word()?;
    let update = r.number()?;
    Ok((Acknowledged { id, update }, r.at))
}
