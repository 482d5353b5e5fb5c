ghost use Rattle.std.specs.Prelude.{◌≡◌, IfOk};
ghost use Rattle.bj_exec.specs.Machine.{shown};
ghost use Rattle.bj_exec.specs.Machine as machine;

use crate::CallFrames;
use bj_code::CallFrame;
use bj_core::{Action, Done, Frames, NoMemory};
use std::alloc::Global;

/// What a thread wants.
#[derive(Drop)]
pub enum Want {
    /// To do an instruction.
    Move,
    /// An action of the store.
    Do(Action),
    /// Nothing more: its term is over.
    Over(Done),
}

/// Where a thread is: what it wants, and its call frames.
#[derive(Drop)]
pub struct Run {
    /// What it wants.
    pub want: Want,
    /// The frame of the body that runs.
    pub top: CallFrame,
    /// The frames below it.
    pub below: CallFrames,
}

/// Wants something else.
pub(crate) fn turn(run: &mut Run, want: Want)
    ensures { run.new ≡ machine.wanting want run.old.top run.old.below }
{
    run.want = want;
}

/// The frames that a debugger shows, the newest first.
pub(crate) fn shown_of(alloc: Global, run: &Run) -> Result<Frames, NoMemory>
    ensures { IfOk result (λ fs. fs ≡ shown run.now) }
{
    let mut frames = Frames::new(alloc);
    frames.push(run.top.activation.shown(alloc, run.top.invocation)?)?;
    for depth in 0..run.below.len() {
        let Some(frame) = run.below.get(depth) else {
            unreachable!()
        };
        frames.push(frame.activation.shown(alloc, frame.invocation)?)?;
    }
    Ok(frames)
}
