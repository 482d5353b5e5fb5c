ghost use Rattle.std.specs.Prelude.{◌≡◌, List, [], ◌∷◌, ◌<◌, ◌≤◌, length, take, drop, reverse, slice_get, IfOk, MatchOption};
ghost use Rattle.bj_code.specs.Stack.{Stack};

use bj_core::{NoMemory, Val};
use sqlite_items::Items;
use std::alloc::Global;
use std::marker::Model;

/// The operand stack of a body that runs. Its room is taken when it is made, so a push takes no memory.
#[derive(Drop)]
pub struct Operands {
    /// The operands, the lowest first, and behind them unused room.
    items: Items<Val>,
    /// How many operands there are.
    count: usize,
}

impl Model for Operands {
    ghost use Rattle.std.specs.Prelude.{◌≤◌, length, reverse, take};
    ghost use Rattle.bj_code.specs.Stack.{Stack};

    ghost Value = { Stack };

    ghost view = { λ o. record { values = reverse (take o.count o.items); room = length o.items } };

    ghost invariant = { λ o. o.count ≤ length o.items };
}

impl Operands {
    /// No operands, with room for as many.
    ///
    /// # Errors
    ///
    /// `NoMemory` where there is no such room.
    pub fn new(alloc: Global, room: u32) -> Result<Operands, NoMemory>
        ensures { IfOk result (λ o. o ≡ record { values = []; room = room }) }
    {
        let mut items = Items::new(alloc);
        for _ in 0..room {
            items.push(Val::Null)?;
        }
        Ok(Operands { items, count: 0 })
    }

    /// Puts a value on top.
    pub fn push(&mut self, value: Val)
        requires { length self.old.values < self.old.room }
        ensures { self.new ≡ record { values = value ∷ self.old.values; room = self.old.room } }
    {
        let room = self.items.len();
        prove!(self.count < room);
        self.items.set(self.count, value);
        self.count += 1;
    }

    /// Takes the topmost operand off, if there is one.
    pub fn pop(&mut self) -> Option<Val>
        ensures room { self.new.room ≡ self.old.room }
        ensures fits { length self.old.values ≤ self.old.room }
        ensures top { MatchOption result ((self.old.values ≡ []) × (self.new.values ≡ [])) (λ top. self.old.values ≡ top ∷ self.new.values) }
    {
        if self.count == 0 {
            return None;
        }
        self.count -= 1;
        self.items.get(self.count).copied()
    }

    /// The operand below as many others, or None where there is none.
    pub fn below(&self, others: usize) -> Option<Val>
        ensures { result ≡ slice_get self.now.values others }
    {
        if others >= self.count {
            return None;
        }
        self.items.get(self.count - 1 - others).copied()
    }

    /// The topmost operands, the lowest of them first.
    pub fn top(&self, count: usize) -> &[Val]
        requires { count ≤ length self.now.values }
        ensures { result.now ≡ reverse (take count self.now.values) }
    {
        &self.items.as_slice()[self.count - count..self.count]
    }

    /// Takes as many operands off.
    pub fn drop_top(&mut self, count: usize)
        requires { count ≤ length self.old.values }
        ensures { self.new ≡ record { values = drop count self.old.values; room = self.old.room } }
    {
        self.count -= count;
    }

    /// Takes all operands off.
    pub fn clear(&mut self)
        ensures { self.new ≡ record { values = []; room = self.old.room } }
    {
        self.count = 0;
    }
}
