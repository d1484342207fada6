// What an update of each form asks for.
ghost use Rattle.std.specs.Prelude.{◌≡◌, ◌+◌, ◌≤◌, ◌||◌, length};
ghost use Rattle.session.specs.Session.{is_updated};
ghost use Rattle.message.specs.Effects.{updated_entry, update_of, update};

use crate::changes::{ask_refusal, refuse_body};
use crate::{Asked, binding_at};
use body::update::{Form, Update, read_update};
use session::{Binding, Connection};
use store::tables::table_at;
use store::{Entry, TABLES, Table};

// The entry that an update of the table at a place makes.
#[tactic(auto, unfolding(crate::specs::Effects::updated_entry, body::specs::Fields::span_in))]
fn updated_entry(body: &[u8], table: usize, update: Update) -> Entry
    requires { update.key.start + update.key.len ≤ length body.now }
    ensures { result ≡ updated_entry body.now table update }
{
    let key = &body[update.key.start..][..update.key.len];
    let time = update.time;
    let values = update.values;
    store::make_entry(
        table,
        key,
        update.server,
        time.timed,
        time.remaining,
        values,
    )
}

// Whether an update of this form has an ID, its own or one that follows the table's previous ID.
#[tactic(auto, unfolding(session::specs::Session::is_updated))]
fn has_id(form: Form, binding: Binding) -> bool
    ensures { result ≡ (form.explicit || is_updated binding) }
{
    form.explicit || binding.updated == 1
}

// An update of the table at a place. Without an ID of its own it has the previous one plus one, and 4294967295 is followed by 0.
#[tactic(auto, using(crate::proofs::Updating::key_inside), unfolding(crate::specs::Effects::update_of, crate::specs::Effects::with_fields, crate::specs::Effects::fields_then, crate::specs::Effects::following_id, session::specs::Session::binding_at))]
fn update_of(
    connection: Connection,
    tables: [Table; TABLES],
    table: usize,
    form: Form,
    body: &[u8],
) -> Asked
    ensures { result ≡ update_of form connection tables table body.now }
{
    let bindings = connection.bindings;
    let b = binding_at(bindings, table);
    if !has_id(form, b) {
        return ask_refusal(connection, 28);
    }
    let following = b.previous.wrapping_add(1);
    match read_update(form, table_at(tables, table), following, body) {
        Ok((update, _)) => Asked::Commit {
            id: update.id,
            entry: updated_entry(body, table, update),
        },
        Err(fault) => Asked::Done(refuse_body(connection, fault)),
    }
}

// An update of the current table.
#[tactic(auto, unfolding(crate::specs::Effects::update))]
pub fn update(connection: Connection, tables: [Table; TABLES], form: Form, body: &[u8]) -> Asked
    ensures { result ≡ update form connection tables body.now }
{
    let current = connection.current as usize;
    if current == 0 {
        return ask_refusal(connection, 27);
    }
    update_of(connection, tables, current - 1, form, body)
}
