// Text in a room written to standard output, for the programs. A write that fails is told on standard error, once, and nothing is written
// after it.
ghost use Rattle.std.specs.Prelude.{◌≡◌, true, length};
ghost use Rattle.text.specs.Room.{fits_behind, place_for};
ghost use Rattle.text.specs.System.{WrittenAfter, WrittenFor};

// The position behind the text that isn't written yet, and whether all text before it was written: a flag, since lines go on being put after a
// failed write.
#[derive(Clone, Copy)]
pub struct Page {
    pub next: usize,
    pub written: bool,
}

// Writes the first n bytes, and answers whether they were written.
#[tactic(auto, unfolding(crate::specs::System::WrittenAfter))]
pub fn write(rt: &(impl Print + Eprint), out: &[u8], n: usize) -> bool
    ensures { WrittenAfter (length out.now) n true result }
{
    if out.len() < n {
        return false;
    }
    match rt.write_all(&out[..n]) {
        Ok(()) => true,
        Err(e) => {
            let _ = eprintln!(rt; "standard output: {e}");
            false
        }
    }
}

// Whether so many bytes fit behind a position.
#[tactic(auto, unfolding(crate::specs::Room::fits_behind))]
fn fits_behind(size: usize, next: usize, most: usize) -> bool
    ensures { result ≡ fits_behind size next most }
{
    next < size && most <= size - next
}

// Whether all was written once the first n bytes are too. After a failed write none is tried.
#[tactic(auto, unfolding(crate::specs::System::WrittenAfter))]
fn write_more(rt: &(impl Print + Eprint), out: &[u8], n: usize, written: bool) -> bool
    ensures { WrittenAfter (length out.now) n written result }
{
    written && write(rt, out, n)
}

// Writes what isn't written yet.
pub fn flush(rt: &(impl Print + Eprint), out: &[u8], page: Page) -> Page
    ensures next_value { result.next ≡ 0 }
    ensures written_after { WrittenAfter (length out.now) page.next page.written result.written }
{
    let written = write_more(rt, out, page.next, page.written);
    Page { next: 0, written }
}

// The page with room for the next text, of at most so many bytes: as it is if there is room behind `next`, else from the start, and what
// stands before `next` is written.
#[tactic(auto, unfolding(crate::specs::Room::place_for, crate::specs::System::WrittenFor))]
pub fn room_at(rt: &(impl Print + Eprint), out: &[u8], page: Page, most: usize) -> Page
    ensures next_value { result.next ≡ place_for (length out.now) page.next most }
    ensures written_for { WrittenFor (length out.now) page.next most page.written result.written }
{
    if fits_behind(out.len(), page.next, most) {
        return page;
    }
    flush(rt, out, page)
}
