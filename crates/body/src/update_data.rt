// Server ID and values of an update, read from its body.
ghost use Rattle.std.specs.Prelude.{◌≡◌};
ghost use Rattle.body.specs.Reading.{Reads};
ghost use Rattle.body.specs.Bodies.{server_field, slot_field, value_fields, data_fields};

use crate::Fault;
use crate::reader::BodyReader;
use store::VALUES;

// Server ID and values.
#[derive(Clone, Copy)]
pub struct Data {
    pub server: i32,
    pub values: [u64; VALUES],
}

// The server ID, if it is among the data types.
#[tactic(auto, unfolding(crate::specs::Bodies::server_field, crate::specs::Fields::server_id))]
fn read_server(r: &mut BodyReader<'_>, types: u32) -> Result<i32, Fault>
    ensures { Reads (server_field types) r.old r.new result }
{
    if !store::types::present(types, 0) {
        return Ok(0);
    }
    let read = wire::values::read_server_id(r.body, r.at);
    r.take(read)
}

// An integer of data type `t`, if that type is present.
#[tactic(auto, using(crate::proofs::FieldLaws::of_width), unfolding(crate::specs::Bodies::slot_field, store::specs::Limits::width_of))]
fn read_slot(r: &mut BodyReader<'_>, types: u32, t: usize) -> Result<u64, Fault>
    ensures { Reads (slot_field types t) r.old r.new result }
{
    if !store::types::present(types, t) {
        return Ok(0);
    }
    if store::types::is_wide(t) {
        return r.value();
    }
    let read = wire::values::read_value32(r.body, r.at);
    r.take(read)
}

// The values, an integer for each slot whose data type is present.
#[tactic(auto, using(crate::proofs::Filling::filling_laws))]
fn read_values(r: &mut BodyReader<'_>, types: u32) -> Result<[u64; VALUES], Fault>
    ensures { Reads (value_fields types) r.old r.new result }
{
    let mut values = [0u64; VALUES];
    for (slot, place) in values.iter_mut().enumerate() {
        *place = read_slot(r, types, store::types::slot_type(slot))?;
    }
    Ok(values)
}

// Server ID and values at `at`.
#[tactic(auto, unfolding(crate::specs::Bodies::data_fields))]
pub fn read_data(types: u32, body: &[u8], at: usize) -> Result<(Data, usize), Fault>
    ensures { result ≡ data_fields types body.now at }
{
    let mut r = BodyReader { body, at };
    let server = read_server(&mut r, types)?;
    let values = read_values(&mut r, types)?;
    Ok((Data { server, values }, r.at))
}
