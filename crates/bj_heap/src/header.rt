ghost use Rattle.std.specs.Prelude.{◌≡◌, ◌≢◌, ◌&&◌, ◌++◌, ◌∷◌, [], ◌+◌, ◌-◌, ◌^◌, ◌<◌, ◌≤◌, Err, length, slice_get, vec_len, vec_capacity, OnOk, OnErr, IsOk};
ghost use Rattle.bj_heap.specs.Cells.{place_of, own_in, header_of, fits_in};

use bj_core::{HeapLimits, NoMemory, Ty, Val};

/// An object: its own type, and where its cells stand among those of all objects.
#[derive(Clone, Copy)]
pub struct Header {
    /// The type of which it was made.
    pub own: Ty,
    /// The place of its first cell.
    pub start: u32,
    /// How many cells it has.
    pub count: u32,
}

/// The place of an object's cell among the cells of all objects, if it has one there.
pub fn place(headers: &[Header], object: u32, slot: u32) -> Option<usize>
    ensures { result ≡ place_of headers.now object slot }
{
    if object == 0 {
        return None;
    }
    match headers.get(object as usize - 1) {
        None => None,
        Some(header) => {
            if slot < header.count {
                return Some(header.start as usize + slot as usize);
            }
            None
        }
    }
}

/// The type of which an object was made, if there is one of this number.
pub fn own(headers: &[Header], object: u32) -> Option<Ty>
    ensures { result ≡ own_in headers.now object }
{
    if object == 0 {
        return None;
    }
    match headers.get(object as usize - 1) {
        None => None,
        Some(header) => Some(header.own),
    }
}

/// The value at a place of the cells of all objects, if there is one.
pub fn value(cells: &[Val], at: usize) -> Option<Val>
    ensures { result ≡ slice_get cells.now at }
{
    cells.get(at).copied()
}

/// Adds an object behind the others. Where memory is wanting all stays.
pub fn add(
    headers: &mut Vec<Header>,
    cells: &mut Vec<Val>,
    own: Ty,
    fields: &[Val],
) -> Result<(), NoMemory>
    requires { vec_len cells.old + length fields.now < 2 ^ 32 }
    ensures headers { OnOk result (headers.new.items ≡ headers.old.items ++ header_of own (vec_len cells.old) (length fields.now) ∷ []) }
    ensures cells { OnOk result (cells.new.items ≡ cells.old.items ++ fields.now) }
    ensures same_headers { OnErr result (headers.new.items ≡ headers.old.items) }
    ensures same_cells { OnErr result (cells.new.items ≡ cells.old.items) }
    ensures header_room { vec_capacity headers.old - vec_len headers.old ≤ vec_capacity headers.new - vec_len headers.new + 1 }
    ensures cell_room { vec_capacity cells.old - vec_len cells.old ≤ vec_capacity cells.new - vec_len cells.new + length fields.now }
    ensures enough { 1 ≤ vec_capacity headers.old - vec_len headers.old → length fields.now ≤ vec_capacity cells.old - vec_len cells.old → IsOk result }
{
    let header = Header {
        own,
        start: cells.len() as u32,
        count: fields.len() as u32,
    };
    headers.reserve(1)?;
    cells.extend_from_slice(fields)?;
    let pushed = headers.push(header);
    prove!(pushed.is_ok());
    Ok(())
}

/// Whether so many objects and cells more stay within the limits.
pub fn fits(
    limits: HeapLimits,
    objects: usize,
    cells: usize,
    more_objects: usize,
    more_cells: usize,
) -> bool
    ensures { result ≡ fits_in limits objects cells more_objects more_cells }
{
    let most_objects = limits.objects as usize;
    let most_cells = limits.cells as usize;
    if more_objects > most_objects || more_cells > most_cells {
        return false;
    }
    objects <= most_objects - more_objects && cells <= most_cells - more_cells
}
