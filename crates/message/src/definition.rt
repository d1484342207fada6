// What a definition does to session and store.
ghost use Rattle.std.specs.Prelude.{◌≡◌, ◌+◌, ◌≤◌, length};
ghost use Rattle.lists.specs.Lists.{first_place};
ghost use Rattle.store.specs.Store.{table_free, table_named};
ghost use Rattle.body.specs.Fields.{span_in};
ghost use Rattle.message.specs.Effects.{agrees, define_at, define_new, define_named, defined_table, definition};

use crate::changes::{refuse, refuse_body};
use crate::{Change, Effect};
use body::definition::{Definition, read_definition};
use session::reply_bytes::no_reply;
use session::{Answer, Connection};
use store::tables::table_at;
use store::{TABLES, Table};

// Whether a held table agrees with a defined one.
#[tactic(auto, unfolding(crate::specs::Effects::agrees))]
fn agree(held: Table, defined: Table) -> bool
    ensures { result ≡ agrees held defined }
{
    held.key_type == defined.key_type
        && held.key_len == defined.key_len
        && held.data_types == defined.data_types
}

// The defined table goes to a place, and the ID to it alone.
#[tactic(auto, unfolding(crate::specs::Effects::define_at, crate::specs::Changes::table_change))]
fn define_at(connection: Connection, id: u32, table: Table, place: usize) -> Effect
    ensures { result ≡ define_at connection id table place }
{
    let bound = session::bound_ids::bind_table(connection, place, id);
    Effect {
        answer: Answer::Table(place),
        reply: no_reply(),
        connection: bound,
        change: Change::Table { place, table },
    }
}

// A name that isn't held takes the lowest free place.
#[tactic(auto, unfolding(crate::specs::Effects::define_new))]
fn define_new(connection: Connection, tables: [Table; TABLES], id: u32, table: Table) -> Effect
    ensures { result ≡ define_new connection id table (first_place table_free tables) }
{
    match store::tables::free_table(tables) {
        Some(place) => define_at(connection, id, table, place),
        None => refuse(connection, 26),
    }
}

// The table held under the name must agree with the defined one, which takes its place.
#[tactic(auto, unfolding(crate::specs::Effects::define_named))]
fn define_named(
    connection: Connection,
    tables: [Table; TABLES],
    id: u32,
    table: Table,
    name: &[u8],
) -> Effect
    ensures { result ≡ define_named connection tables id table (first_place (table_named name.now) tables) }
{
    match store::tables::find_table(tables, name) {
        Some(place) => {
            if agree(table_at(tables, place), table) {
                define_at(connection, id, table, place)
            } else {
                refuse(connection, 25)
            }
        }
        None => define_new(connection, tables, id, table),
    }
}

// What a definition does whose fields were read: they describe a table.
#[tactic(auto, unfolding(crate::specs::Effects::defined_table, body::specs::Fields::span_in))]
fn define(connection: Connection, tables: [Table; TABLES], body: &[u8], d: Definition) -> Effect
    requires { d.name.start + d.name.len ≤ length body.now }
    ensures { result ≡ define_named connection tables d.id (defined_table body.now d) (first_place (table_named (span_in body.now d.name)) tables) }
{
    let name = &body[d.name.start..][..d.name.len];
    let times = d.times;
    let periods = times.periods;
    let described = store::Definition {
        key_type: d.key_type,
        key_len: d.key_length,
        data_types: d.data_types,
        timed: times.timed,
        expiry: times.expiry,
        periods,
    };
    let table = store::make_table(name, described);
    define_named(connection, tables, d.id, table, name)
}

// A definition: its fields, then the table that it describes.
#[tactic(auto, using(crate::proofs::Defining::name_inside), unfolding(crate::specs::Effects::definition, crate::specs::Effects::fields_then))]
pub fn definition(connection: Connection, tables: [Table; TABLES], body: &[u8]) -> Effect
    ensures { result ≡ definition connection tables body.now }
{
    match read_definition(body) {
        Ok((d, _)) => define(connection, tables, body, d),
        Err(fault) => refuse_body(connection, fault),
    }
}
