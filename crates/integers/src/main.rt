// Runs the wire's numbers through the compiled code. Each line of the output is one case:
//   int V HEX R N        the encoding of V, and the value R and next position N read back from it
//   read HEX ANSWER      what stands at position 0 of the bytes: a value and the next position; `short` or `overflow` and the bytes looked at
//   limit L V ANSWER     V's encoding read with the limit L: a value and the next position, `short` or `out`
//   id V ANSWER          the server ID read from the encoding of the word V, and its word again; or `short` or `out`
//   number V HEX R N     the four bytes of V, and the number R and next position N read back from them
//   put V AT ANSWER HEX  V's encoding put at AT of four bytes of 170: the next position or `full`, and the room afterwards
// Numbers are decimal, bytes are hex.
#![tactic(auto)]

use std::{fmt, io};
use wire::buffer::fit_int;
use wire::fixed::{read_number, write_number};
use wire::values::{FieldError, read_limited, read_server_id, server_id_word};
use wire::{IntError, read_int, write_int};

// Bytes, two hex digits each.
#[derive(Clone, Copy)]
struct Hex<'a>(&'a [u8]);

impl<'a> fmt::Display for Hex<'a> {
    fn fmt<W: fmt::Write>(&self, f: &mut fmt::Formatter<W>) -> fmt::Result {
        for b in self.0 {
            write!(f, "{b:02x}")?;
        }
        Ok(())
    }
}

// What reading an integer gave.
#[derive(Clone, Copy)]
struct Answer(Result<(u64, usize), IntError>);

impl fmt::Display for Answer {
    fn fmt<W: fmt::Write>(&self, f: &mut fmt::Formatter<W>) -> fmt::Result {
        match self.0 {
            Ok((value, next)) => write!(f, "{value} {next}"),
            Err(IntError::Short { looked }) => write!(f, "short {looked}"),
            Err(IntError::Overflow { looked }) => write!(f, "overflow {looked}"),
        }
    }
}

// What reading a field gave.
#[derive(Clone, Copy)]
struct Field(Result<(u64, usize), FieldError>);

impl fmt::Display for Field {
    fn fmt<W: fmt::Write>(&self, f: &mut fmt::Formatter<W>) -> fmt::Result {
        match self.0 {
            Ok((value, next)) => write!(f, "{value} {next}"),
            Err(FieldError::Short) => write!(f, "short"),
            Err(FieldError::OutOfRange) => write!(f, "out"),
        }
    }
}

fn int(rt: &impl Print, v: u64) -> io::Result<()> {
    let e = write_int(v);
    let bytes = e.as_slice();
    println!(rt; "int {v} {} {}", Hex(bytes), Answer(read_int(bytes, 0)))
}

// A value with the one below and the one above it.
fn around(rt: &impl Print, v: u64) -> io::Result<()> {
    if let Some(below) = v.checked_sub(1) {
        int(rt, below)?;
    }
    int(rt, v)?;
    match v.checked_add(1) {
        Some(above) => int(rt, above),
        None => Ok(()),
    }
}

fn read(rt: &impl Print, bytes: &[u8]) -> io::Result<()> {
    println!(rt; "read {} {}", Hex(bytes), Answer(read_int(bytes, 0)))
}

fn limit(rt: &impl Print, max: u64, v: u64) -> io::Result<()> {
    let e = write_int(v);
    println!(rt;
        "limit {max} {v} {}",
        Field(read_limited(e.as_slice(), 0, max))
    )
}

fn server(rt: &impl Print, v: u64) -> io::Result<()> {
    let e = write_int(v);
    match read_server_id(e.as_slice(), 0) {
        Ok((id, _)) => println!(rt; "id {v} {id} {}", server_id_word(id)),
        Err(FieldError::Short) => println!(rt; "id {v} short"),
        Err(FieldError::OutOfRange) => println!(rt; "id {v} out"),
    }
}

fn number(rt: &impl Print, v: u32) -> io::Result<()> {
    let bytes = write_number(v);
    match read_number(&bytes, 0) {
        Some((value, next)) => println!(rt; "number {v} {} {value} {next}", Hex(&bytes)),
        None => println!(rt; "number {v} {} short", Hex(&bytes)),
    }
}

fn put(rt: &impl Print, v: u64, at: usize) -> io::Result<()> {
    let mut room = [170u8; 4];
    match fit_int(&mut room, at, v) {
        Some(next) => println!(rt; "put {v} {at} {next} {}", Hex(&room)),
        None => println!(rt; "put {v} {at} full {}", Hex(&room)),
    }
}

// The smallest value of each length, and the largest.
const LENGTHS: [u64; 11] = [
    0,
    240,
    2288,
    264432,
    33818864,
    4328786160,
    554084600048,
    70922828777712,
    9078122083518704,
    1161999626690365680,
    u64::MAX,
];

// Bytes that are no encoding of a 64-bit value, beside some that are.
fn reads(rt: &impl Print) -> io::Result<()> {
    read(rt, &[])?;
    read(rt, &[0xf0])?;
    read(rt, &[16])?;
    read(rt, &[0xf0, 0x80, 0x80, 0x80, 0x80, 0x80, 0x80, 0x80, 0x80])?;
    read(
        rt,
        &[0xff, 0xf0, 0xfe, 0xfe, 0xfe, 0xfe, 0xfe, 0xfe, 0xfe, 0x0e],
    )?;
    read(
        rt,
        &[0xf0, 0xf1, 0xfe, 0xfe, 0xfe, 0xfe, 0xfe, 0xfe, 0xfe, 0x0e],
    )?;
    read(
        rt,
        &[0xf0, 0x80, 0x80, 0x80, 0x80, 0x80, 0x80, 0x80, 0x80, 0x0f],
    )?;
    read(
        rt,
        &[0xf0, 0x80, 0x80, 0x80, 0x80, 0x80, 0x80, 0x80, 0x80, 0x10],
    )?;
    read(
        rt,
        &[0xf0, 0x80, 0x80, 0x80, 0x80, 0x80, 0x80, 0x80, 0x80, 0x7f],
    )?;
    read(
        rt,
        &[0xf0, 0x80, 0x80, 0x80, 0x80, 0x80, 0x80, 0x80, 0x80, 0x80],
    )?;
    read(
        rt,
        &[
            0xff, 0xff, 0xff, 0xff, 0xff, 0xff, 0xff, 0xff, 0xff, 0xff, 0x00,
        ],
    )
}

// A limit, and a value read with it.
const LIMITS: [(u64, u64); 6] = [
    (0xffff_ffff, 0xffff_fffe),
    (0xffff_ffff, 0xffff_ffff),
    (0xffff_ffff, 0x1_0000_0000),
    (0, 0),
    (0, 1),
    (u64::MAX, u64::MAX),
];

const SERVERS: [u64; 8] = [
    0,
    1,
    0x7fff_ffff,
    0x8000_0000,
    0xffff_ffff_7fff_ffff,
    0xffff_ffff_8000_0000,
    0xffff_ffff_ffff_fffe,
    0xffff_ffff_ffff_ffff,
];

const NUMBERS: [u32; 4] = [0, 0x0102_0304, 0xff00_00fe, 0xffff_ffff];

// A value, and where it is put.
const PLACES: [(u64, usize); 9] = [
    (7, 0),
    (7, 3),
    (7, 4),
    (240, 2),
    (240, 3),
    (2288, 1),
    (2288, 2),
    (7, 5),
    (u64::MAX, 0),
];

fn main(rt: HostRuntime) -> io::Result<()> {
    for v in LENGTHS {
        around(&rt, v)?;
    }
    reads(&rt)?;
    for (max, v) in LIMITS {
        limit(&rt, max, v)?;
    }
    for v in SERVERS {
        server(&rt, v)?;
    }
    for v in NUMBERS {
        number(&rt, v)?;
    }
    for (v, at) in PLACES {
        put(&rt, v, at)?;
    }
    Ok(())
}
