// What each stick table message does to session and store, by its type.
ghost use Rattle.std.specs.Prelude.{◌≡◌};
ghost use Rattle.session.specs.Session.{find_bound};
ghost use Rattle.body.specs.declared.update.Form.{Form};
ghost use Rattle.message.specs.Effects.{switch_to, switch, acknowledgement, stick_table};

use crate::changes::{note, refuse, refuse_body};
use crate::control::skipped;
use crate::definition::definition;
use crate::update::update;
use crate::{Asked, Effect};
use body::Acknowledged;
use body::update::Form;
use frame::{ACKNOWLEDGEMENT, DEFINITION, INCREMENTAL, SWITCH, TIMED, TIMED_INCREMENTAL, UPDATE};
use session::reply_bytes::no_reply;
use session::{Answer, Connection};
use store::{TABLES, Table};

#[tactic(auto, unfolding(crate::specs::Effects::switch_to))]
fn switch_to(connection: Connection, id: u32) -> Effect
    ensures { result ≡ switch_to connection (find_bound connection id) }
{
    match session::bound_ids::find_bound(connection, id) {
        Some(place) => {
            let switched = session::make_current(connection, place);
            note(switched, Answer::Switch(place), no_reply())
        }
        None => refuse(connection, 27),
    }
}

// A switch: the table bound to its ID becomes current.
#[tactic(auto, unfolding(crate::specs::Effects::switch, crate::specs::Effects::fields_then))]
pub fn switch(connection: Connection, body: &[u8]) -> Effect
    ensures { result ≡ switch connection body.now }
{
    match body::read_switch(body) {
        Ok((id, _)) => switch_to(connection, id),
        Err(fault) => refuse_body(connection, fault),
    }
}

// An acknowledgement changes nothing.
#[tactic(auto, unfolding(crate::specs::Effects::acknowledgement, crate::specs::Effects::fields_then))]
pub fn acknowledgement(connection: Connection, body: &[u8]) -> Effect
    ensures { result ≡ acknowledgement connection body.now }
{
    match body::read_acknowledgement(body) {
        Ok((Acknowledged { id, update }, _)) => {
            note(
                connection,
                Answer::Acknowledgement { id, update },
                no_reply(),
            )
        }
        Err(fault) => refuse_body(connection, fault),
    }
}

// The form of an update that has an ID or not, and a remaining time or not: the flags of `Form`.
fn form(explicit: bool, timed: bool) -> Form
    ensures { ◌≡◌ {A = Form} result (record { explicit = explicit; timed = timed }) }
{
    Form { explicit, timed }
}

// A stick table message of this type, from 128 up, with its body. Connection and tables stay two parameters: each message looks at what it
// needs, and a struct of both is no plainer.
#[tactic(auto, unfolding(crate::specs::Effects::stick_table, crate::specs::Effects::by_form, crate::specs::Effects::other_message, body::specs::Bodies::form_of))]
pub fn stick_table(connection: Connection, tables: [Table; TABLES], kind: u8, body: &[u8]) -> Asked
    ensures { result ≡ stick_table connection tables kind body.now }
{
    match kind {
        UPDATE => update(connection, tables, form(true, false), body),
        INCREMENTAL => update(connection, tables, form(false, false), body),
        TIMED => update(connection, tables, form(true, true), body),
        TIMED_INCREMENTAL => update(connection, tables, form(false, true), body),
        DEFINITION => Asked::Done(definition(connection, tables, body)),
        SWITCH => Asked::Done(switch(connection, body)),
        ACKNOWLEDGEMENT => Asked::Done(acknowledgement(connection, body)),
        _ => Asked::Done(skipped(connection, kind)),
    }
}
