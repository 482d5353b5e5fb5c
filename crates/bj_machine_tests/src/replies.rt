use bj_builtin::{CELL, builtin};
use bj_core::{
    Access, Action, Answer, Bytes, Class, Done, Field, HeapLimits, Limits, Name, NoMemory, Reason,
    Seq, Span, Stmt, Ty, Val,
};
use bj_say::{Wait, add_value, end_text, inspection, woke_text, written_text};
use bj_store::{Reaction, Store};
use sqlite_items::Items;
use std::alloc::Global;
use std::test::Fail;

const LIMITS: Limits = Limits {
    acts: 100,
    frames: 10,
    threads: 1,
    heap: HeapLimits {
        objects: 5,
        cells: 10,
    },
};

const SPARE: Val = Val::Ref {
    object: 4,
    of: Ty::Class(4),
};

const CELL_5: Val = Val::Ref {
    object: 5,
    of: Ty::Class(CELL),
};

fn block(alloc: Global) -> Stmt {
    Stmt::Block {
        at: Span { line: 1, column: 1 },
        body: Items::new(alloc),
    }
}

fn field(alloc: Global, name: &[u8], ty: Ty, is_static: bool) -> Result<Field, NoMemory> {
    Ok(Field {
        name: Name::from_slice(alloc, name)?,
        ty,
        is_static,
        is_final: false,
        is_volatile: false,
        access: Access::Package,
        constant: None,
    })
}

/// `class Lid extends Cell { static int made; boolean open; Cell inside; }`
fn lid(alloc: Global) -> Result<Class, NoMemory> {
    let mut fields = Seq::new(alloc);
    fields.push(field(alloc, b"made", Ty::Int, true)?)?;
    fields.push(field(alloc, b"open", Ty::Bool, false)?)?;
    fields.push(field(alloc, b"inside", Ty::Class(CELL), false)?)?;
    Ok(Class {
        name: Name::from_slice(alloc, b"Lid")?,
        is_interface: false,
        is_abstract: false,
        is_final: false,
        above: Some(CELL),
        interfaces: Seq::new(alloc),
        fields,
        methods: Seq::new(alloc),
        static_start: block(alloc),
        instance_start: block(alloc),
        is_prelude: false,
    })
}

/// Whether a text was made, and is this one.
fn is_text(made: &Result<Bytes, NoMemory>, wanted: &[u8]) -> bool {
    match made {
        Ok(text) => text.as_slice() == wanted,
        Err(_) => false,
    }
}

#[test]
fn writes_values(rt: HostRuntime) -> Result<(), Fail> {
    let Ok(program) = builtin(rt.alloc()) else {
        assert!(rt; false);
        return Ok(());
    };
    let thread = Val::Ref {
        object: 1,
        of: Ty::Class(1),
    };
    let rows: [(Val, &[u8]); 7] = [
        (Val::Int(8), b"8"),
        (Val::Int(-2_147_483_648), b"-2147483648"),
        (Val::Long(9_223_372_036_854_775_807), b"9223372036854775807"),
        (Val::Bool(true), b"true"),
        (Val::Bool(false), b"false"),
        (Val::Null, b"null"),
        (thread, b"<Thread 1>"),
    ];
    for (value, wanted) in &rows {
        let mut text = Seq::new(rt.alloc());
        assert!(rt; add_value(rt.alloc(), &mut text, &program, *value).is_ok());
        assert!(rt; text.as_slice() == *wanted);
    }
    Ok(())
}

#[test]
fn writes_the_ends_of_terms(rt: HostRuntime) -> Result<(), Fail> {
    let Ok(program) = builtin(rt.alloc()) else {
        assert!(rt; false);
        return Ok(());
    };
    let Ok(name) = Name::from_slice(rt.alloc(), b"c".as_slice()) else {
        assert!(rt; false);
        return Ok(());
    };
    let bound = Some(name);
    let rows: [(Option<Done>, &[u8]); 4] = [
        (None, b""),
        (Some(Done::Nothing), b"! done\n"),
        (Some(Done::Value(Val::Int(7))), b"! 7 (int)\n"),
        (Some(Done::Threw(SPARE)), b"! threw OutOfMemoryError\n"),
    ];
    for (end, wanted) in &rows {
        assert!(rt; is_text(&end_text(rt.alloc(), &program, &None, *end), *wanted));
    }
    let made = end_text(rt.alloc(), &program, &bound, Some(Done::Value(CELL_5)));
    assert!(rt; is_text(&made, b"! c <Cell 5>\n".as_slice()));
    Ok(())
}

#[test]
fn writes_the_ends_of_waits(rt: HostRuntime) -> Result<(), Fail> {
    let rows: [(Option<Wait>, Reason, &[u8]); 5] = [
        (Some(Wait::Told), Reason::Idle, b"! idle\n"),
        (Some(Wait::Told), Reason::Stuck, b"! stuck\n"),
        (Some(Wait::Told), Reason::Spent, b"! spent\n"),
        (Some(Wait::Silent), Reason::Idle, b""),
        (None, Reason::Idle, b""),
    ];
    for (wait, reason, wanted) in &rows {
        assert!(rt; is_text(&woke_text(rt.alloc(), *wait, *reason), *wanted));
    }
    Ok(())
}

#[test]
fn writes_replies_as_lines(rt: HostRuntime) -> Result<(), Fail> {
    let rows: [(&[u8], &[u8]); 2] = [(b"", b""), (b"= not built", b"= not built\n")];
    for (reply, wanted) in &rows {
        let Ok(reply) = Seq::from_slice(rt.alloc(), *reply) else {
            assert!(rt; false);
            return Ok(());
        };
        assert!(rt; is_text(&written_text(rt.alloc(), &reply), *wanted));
    }
    Ok(())
}

#[test]
fn shows_the_fields_of_objects(rt: HostRuntime) -> Result<(), Fail> {
    let Ok(program) = builtin(rt.alloc()) else {
        assert!(rt; false);
        return Ok(());
    };
    let Ok(mut store) = Store::new(rt.alloc(), &program, LIMITS) else {
        assert!(rt; false);
        return Ok(());
    };
    store.begin();
    let made = store.react(&program, 1, &Action::Make { class: CELL });
    assert!(rt; made == Reaction::Answered(Answer::Value(CELL_5)));
    let spare = inspection(rt.alloc(), &program, &store, b"x".as_slice(), SPARE);
    assert!(rt; is_text(&spare, b"= x <OutOfMemoryError 4>".as_slice()));
    let cell = inspection(rt.alloc(), &program, &store, b"c".as_slice(), CELL_5);
    assert!(rt; is_text(&cell, b"= c <Cell 5>\n= int Cell.n = 0".as_slice()));
    Ok(())
}

#[test]
fn shows_the_fields_of_the_superclass_first(rt: HostRuntime) -> Result<(), Fail> {
    let Ok(mut program) = builtin(rt.alloc()) else {
        assert!(rt; false);
        return Ok(());
    };
    let Ok(lid) = lid(rt.alloc()) else {
        assert!(rt; false);
        return Ok(());
    };
    assert!(rt; program.classes.push(lid).is_ok());
    let Ok(mut store) = Store::new(rt.alloc(), &program, LIMITS) else {
        assert!(rt; false);
        return Ok(());
    };
    store.begin();
    let lid_5 = Val::Ref {
        object: 5,
        of: Ty::Class(6),
    };
    let made = store.react(&program, 1, &Action::Make { class: 6 });
    assert!(rt; made == Reaction::Answered(Answer::Value(lid_5)));
    let open = Action::Put {
        object: lid_5,
        slot: 1,
        value: Val::Bool(true),
    };
    assert!(rt; store.react(&program, 1, &open) == Reaction::Answered(Answer::Done));
    let wanted =
        b"= l <Lid 5>\n= int Cell.n = 0\n= boolean Lid.open = true\n= Cell Lid.inside = null";
    let found = inspection(rt.alloc(), &program, &store, b"l".as_slice(), lid_5);
    assert!(rt; is_text(&found, wanted.as_slice()));
    Ok(())
}
