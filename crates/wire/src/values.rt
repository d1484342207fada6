// Values of a width, and the server ID.
ghost use Rattle.std.specs.Prelude.{◌≡◌};
ghost use Rattle.wire.specs.Value.{read_limited, read_width, field_error};
ghost use Rattle.wire.specs.Server.{server_word, server_id_of, read_server_id};

use crate::{IntError, read_int};

// Why a field can't be read: there are too few bytes; or the integer overflows or isn't one that the field may hold.
#[derive(Clone, Copy, Debug, PartialEq, Eq)]
pub enum FieldError {
    Short,
    OutOfRange,
}

// How the integer fails is how the field does.
impl From<IntError> for FieldError {
    ghost from_gives = { λ e r. r ≡ field_error e };

    fn from(e: IntError) -> FieldError {
        match e {
            IntError::Short { .. } => FieldError::Short,
            IntError::Overflow { .. } => FieldError::OutOfRange,
        }
    }
}

// The encoded integer at `at`, which may be at most `limit`.
#[tactic(auto, unfolding(crate::specs::Value::read_limited, crate::specs::Value::limited))]
pub fn read_limited(s: &[u8], at: usize, limit: u64) -> Result<(u64, usize), FieldError>
    ensures { result ≡ read_limited limit s.now at }
{
    let (value, next) = read_int(s, at)?;
    if limit < value {
        return Err(FieldError::OutOfRange);
    }
    Ok((value, next))
}

// A value of 32 bits. The two widths are one function with its limit; each has its name where the claims cite it.
#[tactic(auto, unfolding(crate::specs::Value::read_width))]
pub fn read_value32(s: &[u8], at: usize) -> Result<(u64, usize), FieldError>
    ensures { result ≡ read_width 32 s.now at }
{
    read_limited(s, at, 0xffff_ffff)
}

// A value of 64 bits.
#[tactic(auto, unfolding(crate::specs::Value::read_width))]
pub fn read_value64(s: &[u8], at: usize) -> Result<(u64, usize), FieldError>
    ensures { result ≡ read_width 64 s.now at }
{
    read_limited(s, at, 0xffff_ffff_ffff_ffff)
}

// The server ID of a word, whose bits are those of a number of 64 bits.
pub fn server_id_of(v: u64) -> Option<i32>
    ensures { result ≡ server_id_of v }
{
    i32::try_from(v.cast_signed()).ok()
}

// The word of a server ID: its bits, as a number of 64 bits.
pub fn server_id_word(id: i32) -> u64
    ensures { result ≡ server_word id }
{
    i64::from(id).cast_unsigned()
}

// The server ID at `at`.
#[tactic(auto, unfolding(crate::specs::Server::read_server_id, crate::specs::Server::server_of, crate::specs::Server::server_before))]
pub fn read_server_id(s: &[u8], at: usize) -> Result<(i32, usize), FieldError>
    ensures { result ≡ read_server_id s.now at }
{
    let (word, next) = read_int(s, at)?;
    let id = server_id_of(word).ok_or(FieldError::OutOfRange)?;
    Ok((id, next))
}
