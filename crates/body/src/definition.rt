// The fields of a definition, read from its body.
ghost use Rattle.std.specs.Prelude.{◌≡◌};
ghost use Rattle.body.specs.Reading.{Reads};
ghost use Rattle.body.specs.Bodies.{name_field, named_fields, rest_fields, definition_fields};

use crate::reader::BodyReader;
use crate::shape::read_shape;
use crate::times::{Times, read_times};
use crate::{Failure, Fault, Span};
use store::NAME_MAX;
use store::names::plain_name;

// A definition's ID and name.
#[derive(Clone, Copy)]
pub struct Named {
    pub id: u32,
    pub name: Span,
}

// The fields of a definition.
#[derive(Clone, Copy)]
pub struct Definition {
    pub id: u32,
    pub name: Span,
    pub key_type: u32,
    pub key_length: u32,
    pub data_types: u32,
    pub times: Times,
}

// `n` bytes, which are a name if they are plain.
#[tactic(auto, using(crate::proofs::definition::DefinitionLaws::part_laws), unfolding(crate::specs::Bodies::name_field))]
fn read_name(r: &mut BodyReader<'_>, n: usize) -> Result<Span, Fault>
    ensures { Reads (name_field n) r.old r.new result }
{
    let start = r.at;
    let name = r.part(n)?;
    if plain_name(&r.body[name.start..r.at]) {
        return Ok(name);
    }
    Err(Fault {
        failure: Failure::NotPlain,
        start,
    })
}

// The ID, the name's length and the name.
#[tactic(auto, unfolding(crate::specs::Bodies::named_fields))]
fn read_named(r: &mut BodyReader<'_>) -> Result<Named, Fault>
    ensures { Reads named_fields r.old r.new result }
{
    let id = r.word()?;
    let len = r.between(1, NAME_MAX as u64)?;
    let name = read_name(r, len as usize)?;
    Ok(Named { id, name })
}

// What follows the name of a definition.
#[tactic(auto, unfolding(crate::specs::Bodies::rest_fields))]
fn read_rest(r: &mut BodyReader<'_>, named: Named) -> Result<Definition, Fault>
    ensures { Reads (rest_fields named) r.old r.new result }
{
    let shape = read_shape(r)?;
    let times = read_times(r, shape.data_types)?;
    Ok(Definition {
        id: named.id,
        name: named.name,
        key_type: shape.key_type,
        key_length: shape.key_length,
        data_types: shape.data_types,
        times,
    })
}

// The fields of a definition.
#[tactic(auto, unfolding(crate::specs::Bodies::definition_fields))]
pub fn read_definition(body: &[u8]) -> Result<(Definition, usize), Fault>
    ensures { result ≡ definition_fields body.now }
{
    let mut r = BodyReader { body, at: 0 };
    let named = read_named(&mut r)?;
    let definition = read_rest(&mut r, named)?;
    Ok((definition, r.at))
}
