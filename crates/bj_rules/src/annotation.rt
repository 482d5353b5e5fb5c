ghost use Rattle.std.specs.Prelude.{◌≡◌};
ghost use Rattle.bj_rules.specs.Rules as spec;
ghost use Rattle.bj_rules.specs.Words as spelled;

use crate::Misfit;
use crate::words::is_one_of;
use bj_base::FaultCode;
use bj_tree::AnnotationTree;

const NAMES: [&str; 4] = ["Override", "Test", "Before", "After"];

fn is_known(name: &[u16]) -> bool
    ensures { result ≡ spelled.is_one_of spec.annotation_names name.now }
{
    is_one_of(name, &NAMES)
}

/// The misfit of an annotation: `Profile` at its `@` where it is none of the profile's [JLS 9.7].
pub fn annotation_misfit(annotation: &AnnotationTree) -> Option<Misfit>
    ensures { result ≡ spec.annotation_misfit annotation.now }
{
    if is_known(annotation.name.name.as_slice()) {
        return None;
    }
    Some(Misfit {
        at: annotation.at,
        code: FaultCode::Profile,
    })
}

/// The misfit of annotations: `Profile` at the `@` of the first that is not `Override`, `Test`, `Before` or `After` [JLS 9.7].
pub fn annotations_misfit(annotations: &[AnnotationTree]) -> Option<Misfit>
    ensures { result ≡ spec.annotations_misfit annotations.now }
{
    for annotation in annotations {
        let misfit = annotation_misfit(annotation);
        if misfit.is_some() {
            return misfit;
        }
    }
    None
}
