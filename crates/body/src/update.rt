// The fields of an update, read from its body.
ghost use Rattle.std.specs.Prelude.{◌≡◌};
ghost use Rattle.body.specs.Reading.{Reads};
ghost use Rattle.body.specs.Bodies.{key_field, entry_fields, number_or, time_mark, timed_fields, update_fields};

use crate::reader::BodyReader;
use crate::string_key::read_string;
use crate::update_data::read_data;
use crate::{Fault, Span};
use store::{Table, VALUES};

// The form of an update: whether it has an ID or is incremental, and whether it has a remaining time. Two flags, by which the theorems on
// bodies go.
#[derive(Clone, Copy)]
pub struct Form {
    pub explicit: bool,
    pub timed: bool,
}

// The remaining time of an entry, marked by `timed` 1, or none, marked by 0, as in an `Entry`, which C holds.
#[derive(Clone, Copy)]
pub struct Time {
    pub timed: u32,
    pub remaining: u32,
}

// The fields of an update.
#[derive(Clone, Copy)]
pub struct Update {
    pub id: u32,
    pub time: Time,
    pub key: Span,
    pub server: i32,
    pub values: [u64; VALUES],
}

// The key, of a table with this key type and key length.
#[tactic(auto, unfolding(crate::specs::Bodies::key_field))]
fn read_key(r: &mut BodyReader<'_>, key_type: u32, key_len: usize) -> Result<Span, Fault>
    ensures { Reads (key_field key_type key_len) r.old r.new result }
{
    if store::types::is_string(store::types::key_kind(key_type)) {
        return read_string(r, key_len);
    }
    r.part(key_len)
}

// Key and data, of an update of this table with this ID and this remaining time.
#[tactic(auto, unfolding(crate::specs::Bodies::entry_fields))]
fn read_entry(r: &mut BodyReader<'_>, table: Table, id: u32, time: Time) -> Result<Update, Fault>
    ensures { Reads (entry_fields table id time) r.old r.new result }
{
    let key = read_key(r, table.key_type, table.key_len as usize)?;
    let (data, next) = read_data(table.data_types, r.body, r.at)?;
    r.at = next;
    let values = data.values;
    Ok(Update {
        id,
        time,
        key,
        server: data.server,
        values,
    })
}

// A 4-byte number, if it is there; else what is known without it. The form's flag says which, as in `number_or`.
#[tactic(auto, unfolding(crate::specs::Bodies::number_or))]
fn read_number_or(r: &mut BodyReader<'_>, there: bool, known: u32) -> Result<u32, Fault>
    ensures { Reads (number_or there known) r.old r.new result }
{
    if there {
        return r.number();
    }
    Ok(known)
}

// Whether an update of this form gives its entry a remaining time: 1 where it has one itself, else the table's mark.
#[tactic(auto, unfolding(crate::specs::Bodies::time_mark))]
fn time_mark(form: Form, table: Table) -> u32
    ensures { result ≡ time_mark form table }
{
    if form.timed { 1 } else { table.timed }
}

// The fields of an update of this form and table with this ID: remaining time, key and data.
#[tactic(auto, unfolding(crate::specs::Bodies::timed_fields))]
fn read_timed(r: &mut BodyReader<'_>, form: Form, table: Table, id: u32) -> Result<Update, Fault>
    ensures { Reads (timed_fields form table id) r.old r.new result }
{
    let remaining = read_number_or(r, form.timed, table.expiry)?;
    let timed = time_mark(form, table);
    read_entry(r, table, id, Time { timed, remaining })
}

// The fields of an update of this form and table: its ID, or the one that follows the table's previous ID, remaining time, key and data.
#[tactic(auto, unfolding(crate::specs::Bodies::update_fields))]
pub fn read_update(
    form: Form,
    table: Table,
    following: u32,
    body: &[u8],
) -> Result<(Update, usize), Fault>
    ensures { result ≡ update_fields form table following body.now }
{
    let mut r = BodyReader { body, at: 0 };
    let id = read_number_or(&mut r, form.explicit, following)?;
    let update = read_timed(&mut r, form, table, id)?;
    Ok((update, r.at))
}
