// Where an entry goes: to the place of the entry held with its table and key, else to the lowest free place.
#[derive(Clone, Copy)]
pub enum Place {
    Held(usize),
    Free(usize),
    Full,
}
