ghost use Rattle.std.specs.Prelude.{◌≡◌, length};
ghost use Rattle.bj_store.specs.State.{lives_in, row_at, with_lives_in};

/// What the store knows of a thread.
#[derive(Clone, Copy, Debug, PartialEq, Eq)]
pub struct ThreadRow {
    /// Its Thread object.
    pub object: u32,
    /// Whether it has a term that is not over.
    pub lives: bool,
}

/// How far the initialization of a class is [JLS 12.4.2].
#[derive(Clone, Copy, Debug, PartialEq, Eq)]
pub enum Initialization {
    /// Nobody has asked for it.
    Untouched,
    /// This thread initializes the class.
    By(u32),
    /// It is over.
    Ready,
}

/// Whether the thread with this number, from 1, has a term that is not over.
pub fn is_living(threads: &[ThreadRow], thread: u32) -> bool
    ensures { result ≡ lives_in (row_at threads.now thread) }
{
    if thread == 0 {
        return false;
    }
    match threads.get(thread as usize - 1) {
        None => false,
        Some(row) => row.lives,
    }
}

/// Notes that the thread with this number, from 1, begins to live or ends, if there is one.
pub fn set_lives(threads: &mut Vec<ThreadRow>, thread: u32, lives: bool)
    ensures rows { threads.new.items ≡ with_lives_in threads.old.items thread lives }
    ensures count { length threads.new.items ≡ length threads.old.items }
{
    if thread == 0 {
        return;
    }
    let at = thread as usize - 1;
    if let Some(row) = threads.get(at).copied() {
        threads[at] = ThreadRow {
            object: row.object,
            lives,
        };
    }
}
