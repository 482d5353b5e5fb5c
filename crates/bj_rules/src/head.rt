ghost use Rattle.std.specs.Prelude.{◌≡◌};
ghost use Rattle.bj_rules.specs.Rules as spec;

use crate::mark::mark_misfit;
use crate::{Misfit, Place};
use bj_tree::{AnnotationTree, ClassKind, Modifier};

fn class_place(kind: ClassKind) -> Place
    ensures { result ≡ spec.class_place kind }
{
    match kind {
        ClassKind::Class => Place::Class,
        ClassKind::Interface => Place::Interface,
    }
}

/// The first misfit of what stands before the members of a class or an interface: of its annotations, and then of its modifiers.
///
/// `Profile` stands at the `@` of an annotation that is not `Override`, `Test`, `Before` or `After` [JLS 9.7]; `Syntax` at a modifier
/// that is repeated, that a class, or an interface, does not take, or that excludes one before it [JLS 8.1.1, 9.1.1].
#[tactic(auto, unfolding(crate::specs::Rules::head_misfit))]
pub fn head_misfit(
    annotations: &[AnnotationTree],
    modifiers: &[Modifier],
    kind: ClassKind,
) -> Option<Misfit>
    ensures { result ≡ spec.head_misfit annotations.now modifiers.now kind }
{
    mark_misfit(annotations, class_place(kind), modifiers)
}
