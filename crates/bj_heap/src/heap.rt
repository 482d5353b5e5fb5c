ghost use Rattle.std.specs.Prelude.{◌≡◌, ◌≢◌, ◌≤◌, ◌<◌, ◌+◌, ◌↔◌, ℕ, suc, List, [], ◌∷◌, Some, None, Ok, Err, true, false, length, IfOk, OnOk, OnErr};
ghost use Rattle.bj_core.specs.declared.types.Ty.TheVariants as ty;
ghost use Rattle.bj_core.specs.declared.types.Val.{Val};
ghost use Rattle.bj_heap.specs.declared.fault.HeapFault.TheVariants as fault;
ghost use Rattle.bj_heap.specs.Objects.{Object, HeapState, cell as spec_cell, own_at, with_cell, with_object, can_make, Made, Keeps};

use crate::fault::HeapFault;
use crate::header::{Header, add, fits, own, place, value};
use bj_core::{HeapLimits, Ty, Val};
use std::alloc::Global;
use std::marker::Model;

/// Objects, numbered from 1 in order of making, with the values of their cells.
#[derive(Drop)]
pub struct Heap {
    limits: HeapLimits,
    objects: Vec<Header>,
    cells: Vec<Val>,
}

impl Model for Heap {
    ghost use Rattle.bj_heap.specs.Objects.{HeapValue};

    ghost Value = { HeapValue };

    ghost use Rattle.std.specs.Prelude.{◌-◌, ◌≤◌, length, vec_len, vec_capacity};
    ghost use Rattle.bj_heap.specs.Cells.{split, Laid};

    ghost view = { λ h. record { state = record { limits = h.limits; objects = split h.objects.items h.cells.items }; object_room = vec_capacity h.objects - vec_len h.objects; cell_room = vec_capacity h.cells - vec_len h.cells } };

    ghost invariant = { λ h. Laid 0 h.objects.items (length h.cells.items) × (length h.objects.items ≤ h.limits.objects) × (length h.cells.items ≤ h.limits.cells) };
}

impl Heap {
    /// A heap without objects, which takes no memory.
    pub fn new(alloc: Global, limits: HeapLimits) -> Heap
        ensures { result.state ≡ record { limits = limits; objects = [] } }
    {
        Heap {
            limits,
            objects: Vec::new(alloc),
            cells: Vec::new(alloc),
        }
    }

    /// Makes room, so that so many objects with so many cells in all can be made without taking memory.
    ///
    /// # Errors
    ///
    /// `Full` exactly where so many more would pass a limit, and `NoMemory`; the objects are then as before.
    pub fn reserve(&mut self, objects: u32, cells: u32) -> Result<(), HeapFault>
        ensures state { self.new.state ≡ self.old.state }
        ensures full { (result ≡ Err fault.Full) ↔ (can_make self.old.state objects cells ≡ false) }
        ensures objects { OnOk result (objects ≤ self.new.object_room) }
        ensures cells { OnOk result (cells ≤ self.new.cell_room) }
        ensures keeps { Keeps self.old self.new 0 0 }
        ensures enough { objects ≤ self.old.object_room → cells ≤ self.old.cell_room → result ≢ Err fault.NoMemory }
    {
        let fit = fits(
            self.limits,
            self.objects.len(),
            self.cells.len(),
            objects as usize,
            cells as usize,
        );
        if !fit {
            return Err(HeapFault::Full);
        }
        if self.objects.reserve(objects as usize).is_err() {
            return Err(HeapFault::NoMemory);
        }
        if self.cells.reserve(cells as usize).is_err() {
            return Err(HeapFault::NoMemory);
        }
        Ok(())
    }

    /// Makes an object of a class with these values in its fields, and gives its number.
    ///
    /// # Errors
    ///
    /// `Full` exactly where the object or its cells would pass a limit, and `NoMemory`, which does not come where room
    /// was reserved; the objects are then as before.
    pub fn make(&mut self, class: u32, fields: &[Val]) -> Result<u32, HeapFault>
        ensures made { Made result self.old.state self.new.state (record { own = ty.Class class; cells = fields.now }) }
        ensures full { (result ≡ Err fault.Full) ↔ (can_make self.old.state 1 (length fields.now) ≡ false) }
        ensures keeps { Keeps self.old self.new 1 (length fields.now) }
        ensures enough { 1 ≤ self.old.object_room → length fields.now ≤ self.old.cell_room → result ≢ Err fault.NoMemory }
    {
        let fit = fits(
            self.limits,
            self.objects.len(),
            self.cells.len(),
            1,
            fields.len(),
        );
        if !fit {
            return Err(HeapFault::Full);
        }
        let added = add(&mut self.objects, &mut self.cells, Ty::Class(class), fields);
        let Ok(()) = added else {
            return Err(HeapFault::NoMemory);
        };
        Ok(self.objects.len() as u32)
    }

    /// The value in an object's cell, if there is one.
    pub fn cell(&self, object: u32, slot: u32) -> Option<Val>
        ensures { result ≡ spec_cell self.now.state.objects object slot }
    {
        match place(self.objects.as_slice(), object, slot) {
            None => None,
            Some(at) => value(self.cells.as_slice(), at),
        }
    }

    /// The value in an object's cell, which has to be there.
    pub fn get(&self, object: u32, slot: u32) -> Val
        requires { spec_cell self.now.state.objects object slot ≢ None }
        ensures { Some result ≡ spec_cell self.now.state.objects object slot }
    {
        match self.cell(object, slot) {
            Some(value) => value,
            None => unreachable!(),
        }
    }

    /// Puts a value into an object's cell, which has to be there.
    pub fn put(&mut self, object: u32, slot: u32, stored: Val)
        requires { spec_cell self.old.state.objects object slot ≢ None }
        ensures state { self.new.state ≡ record self.old.state { objects = with_cell self.old.state.objects object slot stored } }
        ensures keeps { Keeps self.old self.new 0 0 }
    {
        if let Some(at) = place(self.objects.as_slice(), object, slot) {
            if at < self.cells.len() {
                self.cells[at] = stored;
            }
        }
    }

    /// The type of which an object was made, if there is one of this number.
    pub fn own(&self, object: u32) -> Option<Ty>
        ensures { result ≡ own_at self.now.state.objects object }
    {
        own(self.objects.as_slice(), object)
    }
}

/// The cells are a finite map: a cell that is put holds the value, and the others hold what they held.
pub fn cells_are_a_map()
    ensures same { (objects : List Object) (object slot : ℕ) (value : Val) → spec_cell objects object slot ≢ None → spec_cell (with_cell objects object slot value) object slot ≡ Some value }
    ensures object { (objects : List Object) (object slot other at : ℕ) (value : Val) → object ≢ other → spec_cell (with_cell objects object slot value) other at ≡ spec_cell objects other at }
    ensures slot { (objects : List Object) (object slot at : ℕ) (value : Val) → slot ≢ at → spec_cell (with_cell objects object slot value) object at ≡ spec_cell objects object at }
{}
