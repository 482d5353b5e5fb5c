ghost use Rattle.std.specs.Prelude.{◌≡◌};
ghost use Rattle.bj_rules.specs.Rules as spec;

use crate::annotation::annotations_misfit;
use crate::modifier::modifiers_misfit;
use crate::{Misfit, Place};
use bj_tree::{AnnotationTree, Modifier};

/// The first misfit of the annotations that stand at a place, and then of its modifiers.
pub fn mark_misfit(
    annotations: &[AnnotationTree],
    place: Place,
    modifiers: &[Modifier],
) -> Option<Misfit>
    ensures { result ≡ spec.mark_misfit annotations.now place modifiers.now }
{
    let misfit = annotations_misfit(annotations);
    if misfit.is_some() {
        return misfit;
    }
    modifiers_misfit(place, modifiers)
}
