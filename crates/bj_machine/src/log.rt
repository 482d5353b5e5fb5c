ghost use Rattle.std.specs.Prelude.{◌≡◌, ◌≤◌, ◌<◌, ◌-◌, [], None, Some, Ok, length, OnOk, OnErr, slice_get, reverse, IsTrue, ◌↔◌};
ghost use Rattle.std.specs.Option.{option_copied};
ghost use Rattle.bj_machine.specs.Kept.{IsSameLog, HasEntry};

use bj_core::{Action, Entry, NoMemory};
use std::alloc::Global;
use std::marker::Model;

/// An entry, and beside an act the action that was answered.
#[derive(Drop)]
struct Row {
    entry: Entry,
    action: Option<Action>,
}

/// The entries of a history, kept in order, each act with its action. Contracts see the newest first.
#[derive(Drop)]
pub struct Log {
    rows: Vec<Row>,
}

impl Model for Log {
    ghost use Rattle.std.specs.Prelude.{◌-◌, reverse, map, vec_len, vec_capacity};
    ghost use Rattle.bj_machine.specs.Kept.{LogValue, entry_of, action_beside};

    ghost Value = { LogValue };

    ghost view = { λ log. record { entries = reverse (map entry_of log.rows.items); actions = reverse (map action_beside log.rows.items); room = vec_capacity log.rows - vec_len log.rows } };
}

impl Log {
    /// An empty log, which takes no memory.
    pub fn new(alloc: Global) -> Log
        ensures entries { result.entries ≡ [] }
        ensures actions { result.actions ≡ [] }
    {
        Log {
            rows: Vec::new(alloc),
        }
    }

    /// How many entries there are.
    pub fn len(&self) -> u64
        ensures { result ≡ length self.now.entries }
    {
        self.rows.len() as u64
    }

    /// Whether there is no entry.
    pub fn is_empty(&self) -> bool
        ensures { IsTrue result ↔ (self.now.entries ≡ []) }
    {
        self.rows.is_empty()
    }

    /// The entry at a place, from 1 in order of their coming.
    pub fn entry(&self, place: u64) -> &Entry
        requires { (1 ≤ place) × (place ≤ length self.now.entries) }
        ensures { slice_get (reverse self.now.entries) (place - 1) ≡ Some result.now }
    {
        &self.rows[place as usize - 1].entry
    }

    /// The action that was answered by the act at a place, and None beside another entry.
    pub fn action(&self, place: u64) -> Option<&Action>
        requires { (1 ≤ place) × (place ≤ length self.now.entries) }
        ensures { slice_get (reverse self.now.actions) (place - 1) ≡ Some (option_copied result) }
    {
        self.rows[place as usize - 1].action.as_ref()
    }

    /// Makes room for so many entries more.
    ///
    /// # Errors
    ///
    /// `NoMemory`, which does not come where there was room; the log is then as before.
    pub fn reserve(&mut self, entries: usize) -> Result<(), NoMemory>
        ensures room { OnOk result (entries ≤ self.new.room) }
        ensures same { IsSameLog self.old self.new }
        ensures enough { entries ≤ self.old.room → result ≡ Ok tt }
    {
        match self.rows.reserve(entries) {
            Ok(()) => Ok(()),
            Err(_) => Err(NoMemory),
        }
    }

    /// Adds an entry, with its action where it is an act.
    ///
    /// # Errors
    ///
    /// `NoMemory`, which does not come where there was room; the log is then as before.
    pub fn push(&mut self, entry: Entry, action: Option<Action>) -> Result<(), NoMemory>
        ensures ok { OnOk result (HasEntry entry action self.old self.new) }
        ensures err { OnErr result (IsSameLog self.old self.new) }
        ensures enough { 0 < self.old.room → result ≡ Ok tt }
    {
        match self.rows.push(Row { entry, action }) {
            Ok(()) => {}
            Err(_) => return Err(NoMemory),
        }
        Ok(())
    }

    /// Adds an entry as `push` does, where there is room for it. Takes no memory.
    pub fn put(&mut self, entry: Entry, action: Option<Action>)
        requires { 0 < self.old.room }
        ensures { HasEntry entry action self.old self.new }
    {
        match self.push(entry, action) {
            Ok(()) => {}
            Err(_) => unreachable!(),
        }
    }
}
