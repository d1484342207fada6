// The store of document 01: 8 table places and 128 entry places, as plain numbers.
// The lender of a store can put any number anywhere; the tests of the crate `store_soundness` say whether the rules allow it.
#![tactic(auto)]

pub mod counts;
pub mod entries;
pub mod lent;
pub mod names;
pub mod tables;
pub mod time;
pub mod types;

ghost use Rattle.std.specs.Prelude.{◌≡◌};
ghost use Rattle.store.specs.Store.{time_left, make_entry, make_table, no_table, no_entry, empty_store};

// ---- limits

// Places for tables and for entries.
pub const TABLES: usize = 8;

pub const ENTRIES: usize = 128;
// The longest table name and the longest key.
pub const NAME_MAX: usize = 32;

pub const KEY_MAX: usize = 64;
// Eight data types are rates.
pub const RATES: usize = 8;
// Integers of an entry's data types other than the server ID: 10 single ones and 8 times 3.
pub const VALUES: usize = 34;
// Data types are bits 0 to 18.
pub const DATA_TYPES_MAX: u32 = 0x7_ffff;

// A table. `held` is 1 for a held table and 0 for a free place, `timed` is 1 where expiry and periods are known and 0 where there are none.
// Only the first `name_len` bytes of `name`, and only the periods of rate types present, are values; the others are written as zero.
#[repr(C)]
#[derive(Clone, Copy)]
pub struct Table {
    pub held: u32,
    pub key_type: u32,
    pub timed: u32,
    pub data_types: u32,
    pub name_len: usize,
    pub key_len: u32,
    pub expiry: u32,
    pub periods: [u32; RATES],
    pub name: [u8; NAME_MAX],
}

// An entry of the table at place `table`. `timed` is 1 for an entry with `remaining` milliseconds left, and 0 for one without a time, whose
// `remaining` is written as zero. The integers of data type t other than 0 stand in `values` from the slot of t on.
#[repr(C)]
#[derive(Clone, Copy)]
pub struct Entry {
    pub held: u32,
    pub server_id: i32,
    pub timed: u32,
    pub remaining: u32,
    pub table: usize,
    pub key_len: usize,
    pub key: [u8; KEY_MAX],
    pub values: [u64; VALUES],
}

// Tables, the number of held entries of each table, and entries, by place.
#[repr(C)]
#[derive(Clone, Copy)]
pub struct Store {
    pub tables: [Table; TABLES],
    pub counts: [u32; TABLES],
    pub entries: [Entry; ENTRIES],
}

// ---- putting a table or an entry

// The remaining time that is written: 0 where there is none.
#[tactic(auto, unfolding(crate::specs::Store::time_left))]
fn time_left(timed: u32, remaining: u32) -> u32
    ensures { result ≡ time_left timed remaining }
{
    if timed == 0 { 0 } else { remaining }
}

// A held entry, with a remaining time where `timed` isn't 0. Key bytes past the longest key are left out. The mark stays beside the number, and
// isn't an Option: what docs/CLAIMS.md says of make_entry holds of any mark, also of one above 1.
#[tactic(auto, unfolding(crate::specs::Store::make_entry))]
pub fn make_entry(
    table: usize,
    key: &[u8],
    server_id: i32,
    timed: u32,
    remaining: u32,
    values: [u64; VALUES],
) -> Entry
    ensures { result ≡ make_entry table key.now server_id timed remaining values }
{
    let remaining = time_left(timed, remaining);
    let mut bytes = [0u8; KEY_MAX];
    lists::pad(&mut bytes, key);
    Entry {
        held: 1,
        server_id,
        timed,
        remaining,
        table,
        key_len: key.len(),
        key: bytes,
        values,
    }
}

// What a definition says of its table besides the name. Mark, expiry and periods stand as in a Table, for any mark, as make_table promises.
#[derive(Clone, Copy)]
pub struct Definition {
    pub key_type: u32,
    pub key_len: u32,
    pub data_types: u32,
    pub timed: u32,
    pub expiry: u32,
    pub periods: [u32; RATES],
}

// A held table. Name bytes past the longest name are left out.
#[tactic(auto, unfolding(crate::specs::Store::make_table))]
pub fn make_table(name: &[u8], definition: Definition) -> Table
    ensures { result ≡ make_table name.now definition }
{
    let mut bytes = [0u8; NAME_MAX];
    lists::pad(&mut bytes, name);
    let periods = definition.periods;
    Table {
        held: 1,
        key_type: definition.key_type,
        timed: definition.timed,
        data_types: definition.data_types,
        name_len: name.len(),
        key_len: definition.key_len,
        expiry: definition.expiry,
        periods,
        name: bytes,
    }
}

// What a table place of the empty store holds. Arrays of these lengths have no Default.
#[tactic(auto, unfolding(crate::specs::Store::no_table))]
pub fn no_table() -> Table
    ensures { result ≡ no_table }
{
    Table {
        held: 0,
        key_type: 0,
        timed: 0,
        data_types: 0,
        name_len: 0,
        key_len: 0,
        expiry: 0,
        periods: [0u32; RATES],
        name: [0u8; NAME_MAX],
    }
}

// What an entry place of the empty store holds.
#[tactic(auto, unfolding(crate::specs::Store::no_entry))]
pub fn no_entry() -> Entry
    ensures { result ≡ no_entry }
{
    Entry {
        held: 0,
        server_id: 0,
        timed: 0,
        remaining: 0,
        table: 0,
        key_len: 0,
        key: [0u8; KEY_MAX],
        values: [0u64; VALUES],
    }
}

// A store without tables and entries.
#[tactic(auto, unfolding(crate::specs::Store::empty_store))]
pub fn empty_store() -> Store
    ensures { result ≡ empty_store }
{
    let t = no_table();
    let e = no_entry();
    Store {
        tables: [t; TABLES],
        counts: [0u32; TABLES],
        entries: [e; ENTRIES],
    }
}
