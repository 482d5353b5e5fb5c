use bj_builtin::{CELL, CELL_ADD, CELL_GET, CELL_INIT, builtin};
use bj_core::{Class, Method, Program};

/// Whether a class has this name, and is of the prelude or not.
fn is_named(class: Option<&Class>, name: &[u8], is_prelude: bool) -> bool {
    match class {
        Some(class) => class.name.as_slice() == name && class.is_prelude == is_prelude,
        None => false,
    }
}

/// Whether the classes are these, of which all but Cell are of the prelude.
fn has_six_classes(program: &Program) -> bool {
    let classes = &program.classes;
    classes.len() == 6
        && is_named(classes.get(0), b"Object", true)
        && is_named(classes.get(1), b"Thread", true)
        && is_named(classes.get(2), b"PrintStream", true)
        && is_named(classes.get(3), b"InputStream", true)
        && is_named(classes.get(4), b"OutOfMemoryError", true)
        && is_named(classes.get(CELL as usize), b"Cell", false)
}

/// What a method is to be: its name, how many parameters it has, and the line and column at which it stands, on one line.
#[derive(Clone, Copy)]
struct Wanted<'a> {
    name: &'a [u8],
    takes: usize,
    line: u32,
    column: u32,
}

fn is_as_wanted(method: Option<&Method>, wanted: Wanted<'_>) -> bool {
    match method {
        Some(method) => {
            method.name.as_slice() == wanted.name
                && method.takes.len() == wanted.takes
                && method.at.line == wanted.line
                && method.end_line == wanted.line
                && method.at.column == wanted.column
        }
        None => false,
    }
}

fn has_its_members(cell: &Class) -> bool {
    let init = Wanted {
        name: b"<init>",
        takes: 1,
        line: 3,
        column: 5,
    };
    let add = Wanted {
        name: b"add",
        takes: 1,
        line: 4,
        column: 9,
    };
    let get = Wanted {
        name: b"get",
        takes: 0,
        line: 5,
        column: 9,
    };
    cell.fields.len() == 1
        && cell.methods.len() == 3
        && is_as_wanted(cell.methods.get(CELL_INIT as usize), init)
        && is_as_wanted(cell.methods.get(CELL_ADD as usize), add)
        && is_as_wanted(cell.methods.get(CELL_GET as usize), get)
}

/// Whether the program has its six classes, and Cell its members.
fn is_builtin(program: &Program) -> bool {
    has_six_classes(program)
        && match program.classes.get(CELL as usize) {
            Some(cell) => has_its_members(cell),
            None => false,
        }
}

/// Lets a program go. Its drop stands here alone.
fn let_go(_program: Program) {}

#[test]
fn has_six_classes_and_the_methods_of_cell(rt: HostRuntime) {
    let found = match builtin(rt.alloc()) {
        Ok(program) => {
            let found = is_builtin(&program);
            let_go(program);
            found
        }
        Err(_) => false,
    };
    assert!(rt; found);
}
