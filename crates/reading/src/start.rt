// What a reading call comes to before the entries of its store are looked at.
ghost use Rattle.std.specs.Prelude.{◌≡◌, ◌&&◌};
ghost use Rattle.lists.specs.Lists.{every, distinct};
ghost use Rattle.store.specs.Sound.{sound_table, same_name};
ghost use Rattle.session_soundness.specs.Sound.{sound_session};
ghost use Rattle.reassembly.specs.Judge.{judge_bytes, asks_of};
ghost use Rattle.reading.specs.Start.{Starts};

use message::Asked;
use reassembly::Part;
use reassembly::judge::judge_bytes;
use reassembly::piece::take_piece;
use session::{Connection, Session};
use session_soundness::session_ok;
use store::{TABLES, Table};
use store_soundness::table::tables_ok;

// Whether the tables and the record are sound, what was taken of the piece, and what that asks for. `sound` is a flag, since the room is tested
// before it, and what was taken is there either way.
#[derive(Clone, Copy)]
pub struct Started {
    pub sound: bool,
    pub part: Part,
    pub asked: Asked,
}

// Whether tables and record are sound.
fn tables_and_record_ok(session: Session, tables: [Table; TABLES]) -> bool
    ensures { result ≡ ((every sound_table tables && distinct same_name tables) && sound_session tables session) }
{
    tables_ok(tables) && session_ok(tables, session)
}

// What the bytes of a part ask for.
fn ask_part(connection: Connection, tables: [Table; TABLES], part: Part) -> Asked
    ensures { result ≡ asks_of connection (judge_bytes connection tables part.bytes) }
{
    judge_bytes(connection, tables, part.bytes.as_slice())
}

// Tests tables and record, takes bytes of the piece, and says what they ask for.
pub fn start_read(session: Session, tables: [Table; TABLES], piece: &[u8]) -> Started
    ensures { Starts session tables piece.now result }
{
    let sound = tables_and_record_ok(session, tables);
    let part = take_piece(session, piece);
    // a copy: a value that was passed on isn't put into a struct
    let ended = part;
    let asked = ask_part(session.connection, tables, ended);
    Started { sound, part, asked }
}
