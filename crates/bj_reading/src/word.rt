ghost use Rattle.std.specs.Prelude.{◌≡◌};
ghost use Rattle.bj_reading.specs.Reply.{code_word as spec_code_word};

use bj_base::FaultCode;

/// The word of a code, as replies have it.
pub fn code_word(code: FaultCode) -> &'static str
    ensures { result.now ≡ spec_code_word code }
{
    match code {
        FaultCode::Char => "char",
        FaultCode::Open => "open",
        FaultCode::Wide => "wide",
        FaultCode::Syntax => "syntax",
        FaultCode::Profile => "profile",
        FaultCode::Deep => "deep",
        FaultCode::Large => "large",
        FaultCode::File => "file",
        FaultCode::Twice => "twice",
        FaultCode::Cycle => "cycle",
        FaultCode::Missing => "missing",
        FaultCode::Override => "override",
        FaultCode::Name => "name",
        FaultCode::Types => "types",
        FaultCode::Ambiguous => "ambiguous",
        FaultCode::Access => "access",
        FaultCode::Static => "static",
        FaultCode::Final => "final",
        FaultCode::Abstract => "abstract",
        FaultCode::Jump => "jump",
        FaultCode::Case => "case",
        FaultCode::Junit => "junit",
        FaultCode::Unreachable => "unreachable",
        FaultCode::Unassigned => "unassigned",
        FaultCode::Uncaught => "uncaught",
        FaultCode::Return => "return",
    }
}
