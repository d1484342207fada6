// The line of an answer.
ghost use Rattle.wire.specs.Writing.{Writes};
ghost use Rattle.listing.specs.AnswerLines.{answer_line};

use crate::update::update_line;
use crate::words::{hello_line, number_line, numbers_line, refused_at_line, table_line, word_line};
use session::{Answer, Connection};
use store::tables::table_at;
use store::{TABLES, Table};
use wire::writer::Writer;

// The line of an answer: the connection gives a hello's name, the tables that of a table.
pub fn put_answer(
    w: &mut Writer<'_>,
    connection: Connection,
    tables: [Table; TABLES],
    answer: Answer,
)
    ensures { Writes (answer_line connection tables answer) w.old w.new }
{
    match answer {
        Answer::More => word_line(w, b"more"),
        Answer::Hello { process, relative } => hello_line(w, connection, process, relative),
        Answer::Status => word_line(w, b"status"),
        Answer::Request => word_line(w, b"request"),
        Answer::Finished => word_line(w, b"finished"),
        Answer::Partial => word_line(w, b"partial"),
        Answer::Confirmed => word_line(w, b"confirm"),
        Answer::Heartbeat => word_line(w, b"heartbeat"),
        Answer::Error(kind) => number_line(w, b"error", u64::from(kind)),
        Answer::Table(place) => table_line(w, place, table_at(tables, place)),
        Answer::Switch(place) => number_line(w, b"switch", place as u64),
        Answer::Update {
            table,
            id,
            entry,
            commit,
        } => update_line(w, table, id, entry, commit),
        Answer::Acknowledgement { id, update } => numbers_line(
            w,
            b"ack",
            u64::from(id),
            u64::from(update),
        ),
        Answer::Skipped(kind) => number_line(w, b"skipped", u64::from(kind)),
        Answer::Refused(number) => number_line(w, b"refused", u64::from(number)),
        Answer::RefusedAt { number, offset } => refused_at_line(w, number, offset),
    }
}
