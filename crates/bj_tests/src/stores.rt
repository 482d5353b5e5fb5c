use bj_base::{Name, NoMemory, Seq, Span};
use bj_core::{
    Access, Action, Answer, Class, Done, Field, HeapLimits, Limits, Point, Program, Stmt, Ty, Val,
};
use bj_store::{Block, Reaction, Store};
use sqlite_items::Items;
use std::alloc::Global;

const AT: Span = Span { line: 1, column: 1 };

fn block(alloc: Global) -> Stmt {
    Stmt::Block {
        at: AT,
        body: Items::new(alloc),
    }
}

/// A field's name, its type, and whether it is static.
type FieldRow<'a> = (&'a [u8], Ty, bool);

fn field(alloc: Global, row: &FieldRow<'_>) -> Result<Field, NoMemory> {
    Ok(Field {
        name: Name::from_slice(alloc, row.0)?,
        ty: row.1,
        is_static: row.2,
        is_final: false,
        is_volatile: false,
        access: Access::Package,
        constant: None,
    })
}

fn fields(alloc: Global, rows: &[FieldRow<'_>]) -> Result<Seq<Field>, NoMemory> {
    let mut fields = Seq::new(alloc);
    for row in rows {
        fields.push(field(alloc, row)?)?;
    }
    Ok(fields)
}

/// A class of its own, or one of the prelude, with these fields.
fn class(
    alloc: Global,
    name: &[u8],
    above: Option<u32>,
    is_prelude: bool,
    rows: &[FieldRow<'_>],
) -> Result<Class, NoMemory> {
    Ok(Class {
        name: Name::from_slice(alloc, name)?,
        is_interface: false,
        is_abstract: false,
        is_final: false,
        above,
        interfaces: Seq::new(alloc),
        fields: fields(alloc, rows)?,
        methods: Seq::new(alloc),
        static_start: block(alloc),
        instance_start: block(alloc),
        is_prelude,
    })
}

/// Adds a class.
fn declare(classes: Seq<Class>, class: Result<Class, NoMemory>) -> Result<Seq<Class>, NoMemory> {
    let mut classes = classes;
    classes.push(class?)?;
    Ok(classes)
}

/// Object and the classes of the four first objects.
fn prelude(alloc: Global) -> Result<Seq<Class>, NoMemory> {
    let classes = declare(Seq::new(alloc), class(alloc, b"Object", None, true, &[]))?;
    let classes = declare(classes, class(alloc, b"Thread", Some(0), true, &[]))?;
    let classes = declare(classes, class(alloc, b"PrintStream", Some(0), true, &[]))?;
    let classes = declare(classes, class(alloc, b"InputStream", Some(0), true, &[]))?;
    declare(
        classes,
        class(alloc, b"OutOfMemoryError", Some(0), true, &[]),
    )
}

/// `Cell` with an `int` and a static field.
fn cell(alloc: Global) -> Result<Class, NoMemory> {
    let rows: [FieldRow<'_>; 2] = [(b"made", Ty::Int, true), (b"n", Ty::Int, false)];
    class(alloc, b"Cell", Some(0), false, &rows)
}

/// `Lid` below `Cell`, with a `boolean`.
fn lid(alloc: Global) -> Result<Class, NoMemory> {
    let rows: [FieldRow<'_>; 1] = [(b"open", Ty::Bool, false)];
    class(alloc, b"Lid", Some(5), false, &rows)
}

/// `Pot` below `Lid`, with a `long`, a `char` and a `Cell`.
fn pot(alloc: Global) -> Result<Class, NoMemory> {
    let rows: [FieldRow<'_>; 3] = [
        (b"size", Ty::Long, false),
        (b"mark", Ty::Char, false),
        (b"inside", Ty::Class(5), false),
    ];
    class(alloc, b"Pot", Some(6), false, &rows)
}

/// The prelude, `Cell`, `Lid` and `Pot`.
fn program(alloc: Global) -> Result<Program, NoMemory> {
    let classes = declare(prelude(alloc)?, cell(alloc))?;
    let classes = declare(classes, lid(alloc))?;
    let classes = declare(classes, pot(alloc))?;
    Ok(Program { classes })
}

fn limits(objects: u32, cells: u32) -> Limits {
    Limits {
        acts: 100,
        frames: 10,
        threads: 10,
        heap: HeapLimits { objects, cells },
    }
}

/// A program with a store over it.
#[derive(Drop)]
struct Opened {
    program: Program,
    store: Store,
}

/// Lets a program go. Its drop stands here alone, as that of what is opened does below.
fn forsake(_program: Program) {}

/// Lets a program with its store go.
fn dismiss(_opened: Opened) {}

/// A new store over the program.
fn open_store(alloc: Global, limits: Limits) -> Result<Opened, NoMemory> {
    let program = program(alloc)?;
    match Store::new(alloc, &program, limits) {
        Ok(store) => Ok(Opened { program, store }),
        Err(_) => {
            forsake(program);
            Err(NoMemory)
        }
    }
}

const DONE: Reaction = Reaction::Answered(Answer::Done);

const READY: Reaction = Reaction::Answered(Answer::Ready);

const UNFIT: Reaction = Reaction::Blocked(Block::Sleeping);

const CELL: Val = Val::Ref {
    object: 5,
    of: Ty::Class(5),
};

const LID: Val = Val::Ref {
    object: 6,
    of: Ty::Class(6),
};

const SPARE: Val = Val::Ref {
    object: 4,
    of: Ty::Class(4),
};

fn value(value: Val) -> Reaction {
    Reaction::Answered(Answer::Value(value))
}

fn get(object: Val, slot: u32) -> Action {
    Action::Get { object, slot }
}

fn put(object: Val, slot: u32, value: Val) -> Action {
    Action::Put {
        object,
        slot,
        value,
    }
}

fn raise(class: u32) -> Action {
    Action::Raise {
        class,
        message: None,
    }
}

/// Whether the store answers each action so, and is blocked exactly where it does not fit.
fn answers_each(program: &Program, store: &mut Store, rows: &[(Action, Reaction)]) -> bool {
    for (action, want) in rows {
        let is_blocked = store.blocked(1, action).is_some();
        if store.react(program, 1, action) != *want || is_blocked != (*want == UNFIT) {
            return false;
        }
    }
    true
}

/// Whether a living main thread is answered its actions, where one object of Cell and one of Lid have room.
fn answers(program: &Program, store: &mut Store) -> bool {
    let point = Point {
        class: 5,
        line: 1,
        depth: 1,
    };
    let cell_as_lid = Val::Ref {
        object: 5,
        of: Ty::Class(6),
    };
    let lid_as_cell = Val::Ref {
        object: 6,
        of: Ty::Class(5),
    };
    let no_object = Val::Ref {
        object: 7,
        of: Ty::Class(5),
    };
    let end = Action::End {
        done: Done::Nothing,
    };
    let rows = [
        (Action::Point(point), DONE),
        (Action::InitBegin { class: 0 }, READY),
        (
            Action::InitBegin { class: 5 },
            Reaction::Answered(Answer::Go),
        ),
        (Action::InitBegin { class: 5 }, READY),
        (Action::InitEnd { class: 5, ok: true }, DONE),
        (Action::InitEnd { class: 5, ok: true }, UNFIT),
        (Action::InitBegin { class: 5 }, READY),
        (Action::InitBegin { class: 8 }, UNFIT),
        (Action::Make { class: 5 }, value(CELL)),
        (get(CELL, 0), value(Val::Int(0))),
        (put(CELL, 0, Val::Int(8)), DONE),
        (put(CELL, 0, Val::Long(9)), UNFIT),
        (Action::Make { class: 6 }, value(LID)),
        (get(CELL, 0), value(Val::Int(8))),
        (get(LID, 0), value(Val::Int(0))),
        (get(LID, 1), value(Val::Bool(false))),
        (get(LID, 2), UNFIT),
        (get(cell_as_lid, 0), UNFIT),
        (get(lid_as_cell, 0), UNFIT),
        (get(no_object, 0), UNFIT),
        (get(Val::Int(5), 0), UNFIT),
        (put(cell_as_lid, 0, Val::Int(7)), UNFIT),
        (put(lid_as_cell, 0, Val::Int(7)), UNFIT),
        (put(no_object, 0, Val::Int(7)), UNFIT),
        (put(LID, 2, Val::Int(7)), UNFIT),
        (put(Val::Null, 0, Val::Null), UNFIT),
        (get(CELL, 0), value(Val::Int(8))),
        (get(LID, 0), value(Val::Int(0))),
        (
            Action::Make { class: 5 },
            Reaction::Answered(Answer::Thrown(4)),
        ),
        (Action::Make { class: 8 }, UNFIT),
        (raise(5), value(SPARE)),
        (Action::Yield, UNFIT),
        (end, DONE),
        (Action::Point(point), UNFIT),
    ];
    store.begin();
    answers_each(program, store, &rows)
}

#[test]
fn answers_the_actions_of_the_main_thread(rt: HostRuntime) {
    let found = match open_store(rt.alloc(), limits(6, 10)) {
        Ok(mut opened) => {
            let found = answers(&opened.program, &mut opened.store)
                && opened.store.heap().own(6) == Some(Ty::Class(6))
                && opened.store.heap().own(7) == None;
            dismiss(opened);
            found
        }
        Err(_) => false,
    };
    assert!(rt; found);
}

const POT: Val = Val::Ref {
    object: 5,
    of: Ty::Class(7),
};

/// Whether the store answers an action so.
fn reacts(program: &Program, store: &mut Store, action: &Action, want: &Reaction) -> bool {
    store.react(program, 1, action) == *want
}

/// A field of Pot by its slot: what is in it first, and what is put there.
type SlotRow = (u32, Val, Val);

/// The slots of Pot: an int, a boolean, a long, a char and a reference, in this order.
const SLOTS: [SlotRow; 5] = [
    (0, Val::Int(0), Val::Int(-1)),
    (1, Val::Bool(false), Val::Bool(true)),
    (2, Val::Long(0), Val::Long(1)),
    (3, Val::Char(0), Val::Char(97)),
    (4, Val::Null, Val::Null),
];

/// Whether a slot takes the new value of its own row, and of no other.
fn takes_its_own(program: &Program, store: &mut Store, slot: u32) -> bool {
    for (other, _, new) in SLOTS {
        let action = put(POT, slot, new);
        let is_blocked = store.blocked(1, &action).is_some();
        let want = if slot == other { DONE } else { UNFIT };
        if is_blocked != (slot != other) || !reacts(program, store, &action, &want) {
            return false;
        }
    }
    true
}

/// Whether each field of Pot has its first value, takes its own new value, no other, and no object, and holds it.
fn stores_its_kinds(program: &Program, store: &mut Store) -> bool {
    for (slot, was, _) in SLOTS {
        if !reacts(program, store, &get(POT, slot), &value(was))
            || !takes_its_own(program, store, slot)
            || !reacts(program, store, &put(POT, slot, POT), &UNFIT)
        {
            return false;
        }
    }
    for (slot, _, new) in SLOTS {
        if !reacts(program, store, &get(POT, slot), &value(new)) {
            return false;
        }
    }
    reacts(program, store, &get(POT, 5), &UNFIT)
}

/// Whether a Pot is made, and then `stores_its_kinds`.
fn makes_a_pot(program: &Program, store: &mut Store) -> bool {
    store.begin();
    reacts(program, store, &Action::Make { class: 7 }, &value(POT))
        && stores_its_kinds(program, store)
}

#[test]
fn stores_values_of_a_fields_kind(rt: HostRuntime) {
    let found = match open_store(rt.alloc(), limits(5, 5)) {
        Ok(mut opened) => {
            let found = makes_a_pot(&opened.program, &mut opened.store);
            dismiss(opened);
            found
        }
        Err(_) => false,
    };
    assert!(rt; found);
}

/// Whether a new store has the four first objects, and one thread without a term, whose actions are blocked.
fn has_four_objects(program: &Program, store: &mut Store) -> bool {
    store.heap().own(1) == Some(Ty::Class(1))
        && store.heap().own(2) == Some(Ty::Class(2))
        && store.heap().own(3) == Some(Ty::Class(3))
        && store.heap().own(4) == Some(Ty::Class(4))
        && store.heap().own(5) == None
        && store.threads() == 1
        && store.clock() == 0
        && !store.lives(1)
        && store.blocked(1, &raise(4)) == Some(Block::Sleeping)
        && reacts(program, store, &raise(4), &UNFIT)
}

/// Whether its main thread lives once it has a term, and is then thrown the fifth object.
fn begins(program: &Program, store: &mut Store) -> bool {
    store.begin();
    let thrown = Val::Ref {
        object: 5,
        of: Ty::Class(4),
    };
    store.lives(1)
        && !store.lives(0)
        && !store.lives(2)
        && store.blocked(1, &raise(4)) == None
        && reacts(program, store, &raise(4), &value(thrown))
        && store.heap().own(5).is_some()
        && store.own(5) == Ty::Class(4)
}

/// Whether there is no store where three objects have room.
fn needs_four_objects(alloc: Global) -> bool {
    match open_store(alloc, limits(3, 10)) {
        Ok(opened) => {
            dismiss(opened);
            false
        }
        Err(_) => true,
    }
}

#[test]
fn opens_with_four_objects(rt: HostRuntime) {
    let alloc = rt.alloc();
    let found = match open_store(alloc, limits(5, 1)) {
        Ok(mut opened) => {
            let found = has_four_objects(&opened.program, &mut opened.store)
                && begins(&opened.program, &mut opened.store);
            dismiss(opened);
            found
        }
        Err(_) => false,
    };
    assert!(rt; found);
    assert!(rt; needs_four_objects(alloc));
}
