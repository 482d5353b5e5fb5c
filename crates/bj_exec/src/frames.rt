ghost use Rattle.std.specs.Prelude.{◌≡◌, ◌+◌, ◌<◌, ◌^◌, [], ◌∷◌, length, slice_get, Some, MatchOption, OnOk, OnErr};
ghost use Rattle.std.specs.Option.{option_copied};
ghost use Rattle.bj_code.specs.Calling.{Call};
ghost use Rattle.bj_code.specs.Calling as calls;

use bj_code::{CallFrame, Instr, leave_arguments};
use bj_core::NoMemory;
use sqlite_items::at;
use std::alloc::Global;
use std::marker::Model;

/// The call frames below the topmost one, which contracts see as a list, the newest first.
#[derive(Drop)]
pub struct CallFrames {
    items: Vec<CallFrame>,
}

impl Model for CallFrames {
    ghost use Rattle.std.specs.Prelude.{List, reverse};
    ghost use Rattle.bj_code.specs.declared.frame.CallFrame.{CallFrame};

    ghost Value = { List CallFrame };

    ghost view = { λ f. reverse f.items.items };
}

impl CallFrames {
    /// No frames, which takes no memory.
    pub fn new(alloc: Global) -> CallFrames
        ensures { result ≡ [] }
    {
        CallFrames {
            items: Vec::new(alloc),
        }
    }

    /// How many there are.
    pub fn len(&self) -> usize
        ensures { result ≡ length self.now }
    {
        self.items.len()
    }

    /// The frame so many places below the newest of them, if there is one.
    pub fn get(&self, depth: usize) -> Option<&CallFrame>
        ensures { option_copied result ≡ slice_get self.now depth }
    {
        let count = self.items.len();
        if depth >= count {
            return None;
        }
        at(self.items.as_slice(), count - 1 - depth)
    }

    /// Puts a frame on top of the topmost one, which has called it by an instruction: that one goes on behind the call, and
    /// is the newest of these frames. The room is made first, and nothing fails behind it.
    ///
    /// # Errors
    ///
    /// `NoMemory`, with the frames and the topmost one as before.
    pub(crate) fn enter(
        &mut self,
        top: &mut CallFrame,
        instr: Instr,
        called: CallFrame,
    ) -> Result<(), NoMemory>
        requires room { top.old.place + 1 < 2 ^ 64 }
        requires calls { (c : Call) × (calls.call instr top.old ≡ Some c) }
        ensures below { OnOk result ((c : Call) → calls.call instr top.old ≡ Some c → self.new ≡ c.caller ∷ self.old) }
        ensures top { OnOk result (top.new ≡ called) }
        ensures err { OnErr result ((self.new ≡ self.old) × (top.new ≡ top.old)) }
    {
        if self.items.reserve(1).is_err() {
            dismiss(called);
            return Err(NoMemory);
        }
        leave_arguments(top, instr);
        self.items.push_reserved(std::mem::replace(top, called));
        Ok(())
    }

    /// Takes the newest frame off, if there is one.
    pub(crate) fn pop(&mut self) -> Option<CallFrame>
        ensures { MatchOption result ((self.old ≡ []) × (self.new ≡ [])) (λ newest. self.old ≡ newest ∷ self.new) }
    {
        self.items.pop()
    }
}

/// Lets a frame go.
pub(crate) fn dismiss(_frame: CallFrame) {}
