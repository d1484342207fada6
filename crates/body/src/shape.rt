// Key type, key length and data types of a definition, read from its body.
ghost use Rattle.std.specs.Prelude.{◌≡◌};
ghost use Rattle.store.specs.Limits.{key_length_ok};
ghost use Rattle.body.specs.Fields.{integer};
ghost use Rattle.body.specs.Reading.{Reads};
ghost use Rattle.body.specs.Bodies.{is_key_type, shape_fields};

use crate::Fault;
use crate::reader::BodyReader;
use store::DATA_TYPES_MAX;

// Key type, key length and data types.
#[derive(Clone, Copy)]
pub struct Shape {
    pub key_type: u32,
    pub key_length: u32,
    pub data_types: u32,
}

// Whether a number is a key type.
#[tactic(auto, using(crate::proofs::shape::ShapeLaws::no_type), unfolding(crate::specs::Bodies::is_key_type))]
fn is_key_type(n: u64) -> bool
    ensures { result ≡ is_key_type n }
{
    n <= u32::MAX as u64 && store::types::is_known(store::types::key_kind(n as u32))
}

// The key type.
#[tactic(auto, using(crate::proofs::FieldLaws::value_laws))]
fn read_key_type(r: &mut BodyReader<'_>) -> Result<u64, Fault>
    ensures { Reads (integer is_key_type) r.old r.new result }
{
    let start = r.at;
    let value = r.value()?;
    r.accept(is_key_type(value), value, start)
}

// The key length, of keys of a type.
#[tactic(auto, using(crate::proofs::FieldLaws::value_laws))]
fn read_key_len(r: &mut BodyReader<'_>, key_type: u32) -> Result<u64, Fault>
    ensures { Reads (integer (key_length_ok key_type)) r.old r.new result }
{
    let start = r.at;
    let value = r.value()?;
    let ok = store::types::key_length_ok(key_type, value as usize);
    r.accept(ok, value, start)
}

// The key type, the key length and the data types.
#[tactic(auto, using(crate::proofs::shape::ShapeLaws::shape_laws), unfolding(crate::specs::Bodies::shape_fields))]
pub(crate) fn read_shape(r: &mut BodyReader<'_>) -> Result<Shape, Fault>
    ensures { Reads shape_fields r.old r.new result }
{
    let kind = read_key_type(r)?;
    let len = read_key_len(r, kind as u32)?;
    let types = r.between(0, DATA_TYPES_MAX as u64)?;
    Ok(Shape {
        key_type: kind as u32,
        key_length: len as u32,
        data_types: types as u32,
    })
}
