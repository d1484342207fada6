// A body read field by field, from front to back. After a fault nothing is said of where the reader stands.
ghost use Rattle.std.specs.Prelude.{◌≡◌};
ghost use Rattle.wire.specs.Value.{read_width};
ghost use Rattle.body.specs.Fields.{field_read, accepted, integer, between, integer_of, bytes, number4};
ghost use Rattle.body.specs.Reading.{Reads, up_to};

use crate::{Failure, Fault, Span};
use wire::values::{FieldError, read_value32, read_value64};

// A body, and the position where the next field starts.
#[derive(Clone, Copy)]
pub(crate) struct BodyReader<'a> {
    pub(crate) body: &'a [u8],
    pub(crate) at: usize,
}

// Whether n is from `low` to `high`.
#[tactic(auto, unfolding(crate::specs::Fields::between))]
fn is_between(low: u64, high: u64, n: u64) -> bool
    ensures { result ≡ between low high n }
{
    low <= n && n <= high
}

impl<'a> BodyReader<'a> {
    // What wire read where the reader stands.
    #[tactic(auto, unfolding(crate::specs::Fields::field_read))]
    pub(crate) fn take<T>(&mut self, read: Result<(T, usize), FieldError>) -> Result<T, Fault>
        ensures { Reads (λ body at. field_read at read) self.old self.new result }
    {
        let start = self.at;
        let (value, next) = read.map_err(|e| Fault {
            failure: Failure::from(e),
            start,
        })?;
        self.at = next;
        Ok(value)
    }

    // An encoded integer.
    pub(crate) fn value(&mut self) -> Result<u64, Fault>
        ensures { Reads (λ body at. field_read at (read_width 64 body at)) self.old self.new result }
    {
        let read = read_value64(self.body, self.at);
        self.take(read)
    }

    // The value read from `start` up to where the reader stands, if it is one that the field may hold: each field has a test of its own, made before.
    #[tactic(auto, unfolding(crate::specs::Fields::accepted))]
    pub(crate) fn accept(&self, ok: bool, value: u64, start: usize) -> Result<u64, Fault>
        ensures { up_to self.now.at result ≡ accepted ok value start self.now.at }
    {
        if ok {
            return Ok(value);
        }
        Err(Fault {
            failure: Failure::OutOfRange,
            start,
        })
    }

    // An encoded integer, which may be from `low` to `high`.
    #[tactic(auto, using(crate::proofs::FieldLaws::value_laws))]
    pub(crate) fn between(&mut self, low: u64, high: u64) -> Result<u64, Fault>
        ensures { Reads (integer (between low high)) self.old self.new result }
    {
        let start = self.at;
        let value = self.value()?;
        self.accept(is_between(low, high, value), value, start)
    }

    // An encoded integer of 32 bits.
    #[tactic(auto, using(crate::proofs::FieldLaws::of_width, crate::proofs::FieldLaws::word_fits))]
    pub(crate) fn word(&mut self) -> Result<u32, Fault>
        ensures { Reads (integer_of 32) self.old self.new result }
    {
        let read = read_value32(self.body, self.at);
        let value = self.take(read)?;
        Ok(value as u32)
    }

    // `n` bytes.
    #[tactic(auto, unfolding(crate::specs::Fields::bytes))]
    pub(crate) fn part(&mut self, n: usize) -> Result<Span, Fault>
        ensures { Reads (bytes n) self.old self.new result }
    {
        let start = self.at;
        if self.body.len() < start || self.body.len() - start < n {
            return Err(Fault {
                failure: Failure::Short,
                start,
            });
        }
        self.at = start + n;
        Ok(Span { start, len: n })
    }

    // A 4-byte number.
    #[tactic(auto, unfolding(crate::specs::Fields::number4, crate::specs::Fields::number_read))]
    pub(crate) fn number(&mut self) -> Result<u32, Fault>
        ensures { Reads number4 self.old self.new result }
    {
        let start = self.at;
        let (value, next) = wire::fixed::read_number(self.body, start).ok_or(Fault {
            failure: Failure::Short,
            start,
        })?;
        self.at = next;
        Ok(value)
    }
}
