use bj_grammar::Stop;
use bj_rules::Misfit;

/// Why a file is read no further.
#[derive(Clone, Copy)]
pub enum Halt {
    /// The grammar takes no further token, a limit is passed, or memory ran out.
    Stopped(Stop),
    /// A part stands, but is not as the profile asks.
    Unfit(Misfit),
}
