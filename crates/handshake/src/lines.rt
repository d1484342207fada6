// Where a line of a hello ends.
ghost use Rattle.std.specs.Prelude.{◌≡◌};
ghost use Rattle.handshake.specs.Handshake.{line_at};

use crate::LineError;

// The most bytes that a line has before its LF.
const LINE_MAX: usize = 64;

// Where the LF of the line that starts at `at` stands.
#[tactic(auto, using(crate::proofs::lines::LineLoop::walking))]
pub fn line_end(s: &[u8], at: usize) -> Result<usize, LineError>
    ensures { result ≡ line_at s.now at }
{
    for i in at..s.len() {
        if s[i] == b'\n' {
            return Ok(i);
        }
        if i - at == LINE_MAX {
            return Err(LineError::TooLong);
        }
    }
    Err(LineError::Open)
}
