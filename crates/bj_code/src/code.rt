ghost use Rattle.std.specs.Prelude.{◌≡◌, IfOk};

use bj_core::{Copies, Names, NoMemory, Op, Seq, Val};
use std::alloc::Global;

/// One instruction. Operands are taken from the operand stack, and a value is put on it.
#[derive(Clone, Copy, Debug, PartialEq, Eq)]
pub enum Instr {
    /// Pushes a value.
    Push(Val),
    /// Pushes the value of the variable in the slot [JLS 15.14.1].
    Load(u32),
    /// Pushes `this` [JLS 15.8.3].
    This,
    /// Takes the topmost operand off [JLS 14.8].
    Pop,
    /// Replaces an `int` by its negative [JLS 15.15.4].
    IntNegate,
    /// Replaces two `int`s by what the operator gives [JLS 15.17 to 15.19, 15.22.1].
    IntBinary(Op),
    /// A step point at a line.
    Point(u32),
    /// Replaces an object by the value of its field in the slot [JLS 15.11.1].
    GetField(u32),
    /// Stores a value in the field of the object below it, which is taken off; the value stays [JLS 15.26.1].
    PutField(u32),
    /// Asks for the class's initialization. Where the class is ready, the two instructions behind it are passed over, which
    /// initialize it [JLS 12.4.2].
    InitBegin(u32),
    /// The class is initialized.
    InitEnd(u32),
    /// Pushes a new object of the class [JLS 15.9.4].
    Make(u32),
    /// Runs what initializes a class, which has no arguments.
    InvokeStart { class: u32, method: u32 },
    /// Calls a constructor of the object below so many arguments. The arguments are taken off, and the object stays.
    InvokeSpecial { class: u32, method: u32, count: u32 },
    /// Calls a method of the object below so many arguments. All are taken off, and the method's value is pushed
    /// [JLS 15.12.4].
    InvokeVirtual { class: u32, method: u32, count: u32 },
    /// Leaves the body with the topmost operand [JLS 14.17].
    ReturnValue,
    /// Leaves the body without a value.
    ReturnNothing,
}

/// Instructions, by place.
pub type Instrs = Seq<Instr>;

/// Where an exception goes that an instruction throws.
#[derive(Clone, Copy, Debug, PartialEq, Eq)]
pub enum Handler {
    /// Out of the body.
    Leave,
    /// To the instruction at the place, over as many of the lowest operands.
    To { place: u32, operands: u32 },
}

/// The handlers of the instructions, by place; where there is none an exception leaves the body.
pub type Handlers = Seq<Handler>;

/// The code of one body.
#[derive(Drop)]
pub struct CodeBody {
    /// Its instructions.
    pub steps: Instrs,
    /// The handlers of its instructions.
    pub handlers: Handlers,
    /// How many variables it has.
    pub locals: u32,
    /// The most operands that it has at once.
    pub depth: u32,
    /// The names of its parameters.
    pub params: Names,
    /// The line at which it stands before its first step point.
    pub entry: u32,
}

/// The code of a class's methods, by number, and behind them that of what initializes the class.
pub type ClassBodies = Seq<CodeBody>;

/// The code of the methods, by class.
pub type Bodies = Seq<ClassBodies>;

/// The code of a program.
#[derive(Drop)]
pub struct Code {
    /// The code of its methods.
    pub methods: Bodies,
}

impl Copies for Instr {
    fn copy(&self, _alloc: Global) -> Result<Instr, NoMemory> {
        Ok(*self)
    }
}

impl Copies for Handler {
    fn copy(&self, _alloc: Global) -> Result<Handler, NoMemory> {
        Ok(*self)
    }
}

impl Copies for CodeBody {
    fn copy(&self, alloc: Global) -> Result<CodeBody, NoMemory> {
        Ok(CodeBody {
            steps: self.steps.copy(alloc)?,
            handlers: self.handlers.copy(alloc)?,
            locals: self.locals,
            depth: self.depth,
            params: self.params.copy(alloc)?,
            entry: self.entry,
        })
    }
}

impl Copies for Code {
    fn copy(&self, alloc: Global) -> Result<Code, NoMemory> {
        Ok(Code {
            methods: self.methods.copy(alloc)?,
        })
    }
}
