ghost use Rattle.std.specs.Prelude.{◌≡◌};
ghost use Rattle.std.specs.List.{list_any};
ghost use Rattle.bj_tree.specs.declared.class.Modifier.{Modifier};
ghost use Rattle.bj_rules.specs.Modifiers as spec;

use crate::{Misfit, Place};
use bj_base::FaultCode;
use bj_tree::{Modifier, ModifierKind};

#[tactic(auto, unfolding(crate::specs::Modifiers::same_kind))]
fn is(a: ModifierKind, b: ModifierKind) -> bool
    ensures { result ≡ spec.same_kind a b }
{
    a == b
}

fn among(kinds: &[ModifierKind], kind: ModifierKind) -> bool
    ensures { result ≡ spec.among kinds.now kind }
{
    for one in kinds {
        if is(kind, *one) {
            return true;
        }
    }
    false
}

/// Whether a place takes a modifier [JLS 8.1.1, 8.3.1, 8.4.3, 8.8.3, 9.1.1, 9.3, 9.4].
fn is_allowed(place: Place, kind: ModifierKind) -> bool
    ensures { result ≡ spec.among (spec.allowed place) kind }
{
    use ModifierKind::{
        Abstract, Final, Private, Protected, Public, Static, Synchronized, Volatile,
    };
    match place {
        Place::Class => among(&[Public, Abstract, Final], kind),
        Place::Interface => among(&[Public, Abstract], kind),
        Place::Field => among(&[Public, Protected, Private, Static, Final, Volatile], kind),
        Place::FieldOfInterface => among(&[Public, Static, Final], kind),
        Place::Method => among(
            &[
                Public,
                Protected,
                Private,
                Abstract,
                Static,
                Final,
                Synchronized,
            ],
            kind,
        ),
        Place::MethodOfInterface => among(&[Public, Abstract, Static], kind),
        Place::Constructor => among(&[Public, Protected, Private], kind),
    }
}

fn is_access(kind: ModifierKind) -> bool
    ensures { result ≡ spec.is_access kind }
{
    among(
        &[
            ModifierKind::Public,
            ModifierKind::Protected,
            ModifierKind::Private,
        ],
        kind,
    )
}

/// Whether the second may not stand beside the first [JLS 8.1.1.2, 8.3.1.4, 8.4.3, 9.4].
fn is_pair(place: Place, a: ModifierKind, b: ModifierKind) -> bool
    ensures { result ≡ spec.is_pair place a b }
{
    match place {
        Place::Class => is(a, ModifierKind::Abstract) && is(b, ModifierKind::Final),
        Place::Field => is(a, ModifierKind::Final) && is(b, ModifierKind::Volatile),
        Place::Method => {
            is(a, ModifierKind::Abstract)
                && among(
                    &[
                        ModifierKind::Private,
                        ModifierKind::Static,
                        ModifierKind::Final,
                        ModifierKind::Synchronized,
                    ],
                    b,
                )
        }
        Place::MethodOfInterface => is(a, ModifierKind::Abstract) && is(b, ModifierKind::Static),
        Place::Interface | Place::FieldOfInterface | Place::Constructor => false,
    }
}

fn exclude(place: Place, a: ModifierKind, b: ModifierKind) -> bool
    ensures { result ≡ spec.exclude place a b }
{
    is_access(a) && is_access(b) || (is_pair(place, a, b) || is_pair(place, b, a))
}

/// Whether a modifier stands in a list.
pub fn has(modifiers: &[Modifier], kind: ModifierKind) -> bool
    ensures { result ≡ list_any (λ (one : Modifier). spec.same_kind kind one.kind) modifiers.now }
{
    for one in modifiers {
        if is(kind, one.kind) {
            return true;
        }
    }
    false
}

fn is_excluded(place: Place, before: &[Modifier], kind: ModifierKind) -> bool
    ensures { result ≡ list_any (λ (one : Modifier). spec.exclude place kind one.kind) before.now }
{
    for one in before {
        if exclude(place, kind, one.kind) {
            return true;
        }
    }
    false
}

fn fits(place: Place, before: &[Modifier], kind: ModifierKind) -> bool
    ensures { result ≡ spec.fits place before.now kind }
{
    !has(before, kind) && (is_allowed(place, kind) && !is_excluded(place, before, kind))
}

/// Whether the profile leaves out what the place takes in Java.
fn is_left_out(place: Place, kind: ModifierKind) -> bool
    ensures { result ≡ spec.is_left_out place kind }
{
    match place {
        Place::MethodOfInterface => is(kind, ModifierKind::Static),
        _ => false,
    }
}

/// The misfit of one modifier of a place, behind those before it: `Syntax` where it is one of these, where the place does not take it or
/// one of these excludes it, and `Profile` at the `static` of a method of an interface [JLS 8.1.1, 8.3.1, 8.4.3, 8.8.3, 9.1.1, 9.3, 9.4].
pub fn modifier_misfit(place: Place, before: &[Modifier], one: Modifier) -> Option<Misfit>
    ensures { result ≡ spec.modifier_misfit place before.now one }
{
    if !fits(place, before, one.kind) {
        return Some(Misfit {
            at: one.at,
            code: FaultCode::Syntax,
        });
    }
    if is_left_out(place, one.kind) {
        return Some(Misfit {
            at: one.at,
            code: FaultCode::Profile,
        });
    }
    None
}

/// The first misfit of the modifiers of a place: `Syntax` at a modifier that is repeated, that the place does not take, or that
/// one before it excludes, and `Profile` at the `static` of a method of an interface [JLS 8.1.1, 8.3.1, 8.4.3, 8.8.3, 9.1.1, 9.3, 9.4].
pub fn modifiers_misfit(place: Place, modifiers: &[Modifier]) -> Option<Misfit>
    ensures { result ≡ spec.modifiers_misfit place modifiers.now }
{
    for (index, one) in modifiers.iter().enumerate() {
        let misfit = modifier_misfit(place, &modifiers[..index], *one);
        if misfit.is_some() {
            return misfit;
        }
    }
    None
}
