// The listing of a session: the lines of one reading call here, each kind of line in a module.
#![tactic(auto)]

pub mod answer;
pub mod end;
pub mod reply;
pub mod update;
pub mod words;

ghost use Rattle.std.specs.Prelude.{take};
ghost use Rattle.wire.specs.Writing.{Writes};
ghost use Rattle.listing.specs.CallLines.{call_lines};

use crate::answer::put_answer;
use crate::reply::put_reply;
use session::{Answer, Connection};
use store::{TABLES, Table};
use wire::writer::Writer;

// The lines of one reading call.
pub fn put_call(
    w: &mut Writer<'_>,
    connection: Connection,
    tables: [Table; TABLES],
    answer: Answer,
    reply: &[u8],
    len: usize,
)
    ensures { Writes (call_lines connection tables answer (take len reply.now)) w.old w.new }
{
    // By number, as the clause has it: a match would need the range of a refusal's number.
    if session::answers::answer_number(answer) != 256 {
        put_answer(w, connection, tables, answer);
        put_reply(w, reply, len);
    }
}
