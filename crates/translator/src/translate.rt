// A nest translated: its sheet, written into a lent room.
ghost use Rattle.std.specs.Prelude.{◌≡◌, ◌≤◌, length, take};
ghost use Rattle.std.proofs.lemmas.List.Edits.{sets};
ghost use Rattle.translator.specs.Reading.{nest, nest_at};
ghost use Rattle.translator.specs.Acceptance.{Accepted};
ghost use Rattle.translator.specs.Translation.{translated, room_after};

use crate::nest::Nest;
use crate::read::read_nest;
use crate::write::{Page, sheet_page};
use codec::refusal::{Refusal, Refused};

// Copies what is written on a page into a room that has place for it.
fn copy(page: &Page, room: &mut [u8])
    requires { (page.now.at ≤ length room.old) × (page.now.at ≤ 1024) }
    ensures { room.new ≡ sets room.old 0 (take page.now.at page.now.bytes) }
{
    for k in 0..page.at {
        room[k] = page.bytes[k];
    }
}

// Writes the sheet of an accepted nest, if the room is long enough.
fn place(m: &Nest, room: &mut [u8]) -> Result<usize, Refused>
    requires { Accepted m.now }
    ensures { (result ≡ translated (nest m.now) (length room.old)) × (room.new ≡ room_after (nest m.now) room.old) }
{
    let page = sheet_page(m);
    let len = page.at;
    if room.len() < len {
        return Err(Refused {
            refusal: Refusal::NoRoom,
            place: 0,
        });
    }
    copy(&page, room);
    Ok(len)
}

// Writes the sheet of the nest that bytes are, or answers why not and leaves the room as it was.
pub fn translate(s: &[u8], room: &mut [u8]) -> Result<usize, Refused>
    ensures { (result ≡ translated (nest_at s.now) (length room.old)) × (room.new ≡ room_after (nest_at s.now) room.old) }
{
    let nest = read_nest(s)?;
    place(&nest, room)
}
