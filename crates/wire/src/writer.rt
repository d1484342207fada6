// Lent room that is written from front to back, as far as it reaches.
ghost use Rattle.wire.specs.Integer.{encode_int};
ghost use Rattle.wire.specs.Number.{encode_number};
ghost use Rattle.wire.specs.Writing.{Writes};

use crate::buffer::{put, put_int};
use crate::fixed::write_number;

// Room, and the position where the next bytes go.
#[derive(Drop)]
pub struct Writer<'a> {
    pub room: &'a mut [u8],
    pub at: usize,
}

impl<'a> Writer<'a> {
    // The bytes follow, as far as the room reaches.
    pub fn put(&mut self, bytes: &[u8])
        ensures { Writes bytes.now self.old self.new }
    {
        self.at = put(self.room, self.at, bytes);
    }

    // The encoding of v follows.
    pub fn int(&mut self, v: u64)
        ensures { Writes (encode_int v) self.old self.new }
    {
        self.at = put_int(self.room, self.at, v);
    }

    // The four bytes of v follow, the highest first.
    pub fn number(&mut self, v: u32)
        ensures { Writes (encode_number v) self.old self.new }
    {
        self.put(&write_number(v));
    }
}
