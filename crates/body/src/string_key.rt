// A key of a string type read from the body of an update.
ghost use Rattle.body.specs.Bodies.{string_field};
ghost use Rattle.body.specs.Reading.{Reads};

use crate::reader::BodyReader;
use crate::{Fault, Span};

// A string key: its length, and its bytes.
#[tactic(auto, unfolding(crate::specs::Bodies::string_field))]
pub(crate) fn read_string(r: &mut BodyReader<'_>, key_len: usize) -> Result<Span, Fault>
    ensures { Reads (string_field key_len) r.old r.new result }
{
    let len = r.between(0, key_len as u64)?;
    r.part(len as usize)
}
