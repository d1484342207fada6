// Standard input for the programs. A read that fails is told on standard error; one that a signal interrupts is made again.
ghost use Rattle.std.specs.Prelude.{◌≡◌, length};
ghost use Rattle.text.specs.System.{ReadAnswer, next_of, FillAnswer};

use std::io::{ErrorKind, Read};

// Why a read brought nothing, not even the end of the input.
#[derive(Clone, Copy, Debug, PartialEq, Eq)]
pub enum ReadError {
    Interrupted,
    Failed,
}

// Why no more bytes follow: the input ended, or a read failed.
#[derive(Clone, Copy, Debug, PartialEq, Eq)]
pub enum InputError {
    End,
    Failed,
}

// Reads once, and answers the number of bytes, 0 at the end of the input.
#[tactic(auto, unfolding(crate::specs::System::ReadAnswer))]
pub fn read_some(rt: &(impl Input + Eprint), buffer: &mut [u8]) -> Result<usize, ReadError>
    ensures read_answer { ReadAnswer (length buffer.old) result }
    ensures buffer_len_unchanged { length buffer.new ≡ length buffer.old }
{
    let mut reader = rt.reader();
    match reader.read(buffer) {
        Ok(n) => Ok(n),
        Err(e) => {
            if e.kind() == ErrorKind::Interrupted {
                return Err(ReadError::Interrupted);
            }
            let _ = eprintln!(rt; "standard input: {e}");
            Err(ReadError::Failed)
        }
    }
}

// What follows a read into a buffer that isn't empty, by what `read_some` answered: how many bytes came, or none where it is made again.
#[tactic(auto, unfolding(crate::specs::System::next_of))]
pub fn next_of(got: Result<usize, ReadError>) -> Result<Option<usize>, InputError>
    ensures { result ≡ next_of got }
{
    match got {
        Ok(0) => Err(InputError::End),
        Ok(n) => Ok(Some(n)),
        Err(ReadError::Interrupted) => Ok(None),
        Err(ReadError::Failed) => Err(InputError::Failed),
    }
}

// Fills the buffer. Nothing says that signals end, so the turns are bounded by a number that no run uses up.
#[tactic(auto, unfolding(crate::specs::System::ReadAnswer, crate::specs::System::next_of, crate::specs::System::FillAnswer))]
pub fn fill(rt: &(impl Input + Eprint), buffer: &mut [u8]) -> Result<(), InputError>
    ensures fill_answer { FillAnswer (length buffer.old) result }
    ensures buffer_len_unchanged { length buffer.new ≡ length buffer.old }
{
    let mut done: usize = 0;
    for turn in 0..u64::MAX {
        if done == buffer.len() {
            return Ok(());
        }
        let got = read_some(rt, &mut buffer[done..]);
        if let Some(n) = next_of(got)? {
            done += n;
        }
    }
    Err(InputError::Failed)
}
