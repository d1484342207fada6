// What a sending call does: which refusal it gives, if any, and in which form an entry goes.
ghost use Rattle.std.specs.Prelude.{◌≡◌};
ghost use Rattle.sending.specs.Sending.{send_number, refused_as, is_of, follows, form_for, type_of};

use body::update::Form;
use frame::{INCREMENTAL, TIMED, TIMED_INCREMENTAL, UPDATE};
use session::{ESTABLISHED, Sending, Session};
use store::Entry;

// The least room for a message.
pub const SEND_ROOM: usize = 1036;

// The refusal's number, if there is one. `sound` is of record and store, `there` of the place that is asked for: the caller has tested both, and a
// struct for two flags is no plainer.
#[tactic(auto, unfolding(crate::specs::Sending::send_number, crate::specs::Sending::refused_as, session::specs::Session::is_closed))]
pub fn send_number(session: Session, sound: bool, room: usize, there: bool) -> Result<(), u8>
    ensures { result ≡ refused_as (send_number sound session room there) }
{
    if !sound {
        return Err(4);
    }
    let connection = session.connection;
    if connection.closed == 1 {
        return Err(2);
    }
    if room < SEND_ROOM {
        return Err(31);
    }
    if connection.phase != ESTABLISHED {
        return Err(34);
    }
    if !there {
        return Err(32);
    }
    Ok(())
}

// Whether an entry is held by the table defined last.
#[tactic(auto, unfolding(crate::specs::Sending::is_of, store::specs::Store::entry_held))]
pub fn is_of(sending: Sending, entry: Entry) -> bool
    ensures { result ≡ is_of sending entry }
{
    let plus_one = sending.defined;
    entry.held == 1 && plus_one != 0 && entry.table == plus_one - 1
}

// Whether an ID follows the last one that was sent since the definition.
#[tactic(auto, unfolding(crate::specs::Sending::follows, message::specs::Effects::following_id))]
fn follows(sending: Sending, id: u32) -> bool
    ensures { result ≡ follows sending id }
{
    sending.sent == 1 && id == sending.last.wrapping_add(1)
}

// The form in which an entry goes.
#[tactic(auto, unfolding(crate::specs::Sending::form_for))]
pub fn form_for(sending: Sending, entry: Entry, id: u32) -> Form
    ensures { result ≡ form_for sending entry id }
{
    let incremental = follows(sending, id);
    Form {
        explicit: !incremental,
        timed: entry.timed == 1,
    }
}

// The type of an update of this form.
#[tactic(auto, unfolding(crate::specs::Sending::type_of))]
pub fn type_of(form: Form) -> u8
    ensures { result ≡ type_of form }
{
    match (form.timed, form.explicit) {
        (true, true) => TIMED,
        (true, false) => TIMED_INCREMENTAL,
        (false, true) => UPDATE,
        (false, false) => INCREMENTAL,
    }
}
