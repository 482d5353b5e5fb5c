ghost use Rattle.std.specs.Prelude.{◌≡◌};
ghost use Rattle.bj_base.specs.declared.fault.FaultCode.TheVariants as codes_of;
ghost use Rattle.bj_rules.specs.Misfits as misfits;
ghost use Rattle.bj_rules.specs.Rules as spec;

use crate::mark::mark_misfit;
use crate::modifier::has;
use crate::size::{block_misfit, body_misfit, values_misfit};
use crate::words::is_text;
use crate::{Misfit, Place};
use bj_base::{FaultCode, Span};
use bj_tree::{
    ClassKind, ConstructorTree, FieldTree, InitializerTree, MemberTree, MethodTree, Modifier,
    ModifierKind, StmtTree,
};
use sqlite_items::Boxed;

/// Where the modifiers of a field stand [JLS 8.3.1, 9.3].
pub fn field_place(kind: ClassKind) -> Place
    ensures { result ≡ spec.field_place kind }
{
    match kind {
        ClassKind::Class => Place::Field,
        ClassKind::Interface => Place::FieldOfInterface,
    }
}

/// Where the modifiers of a method stand [JLS 8.4.3, 9.4].
pub fn method_place(kind: ClassKind) -> Place
    ensures { result ≡ spec.method_place kind }
{
    match kind {
        ClassKind::Class => Place::Method,
        ClassKind::Interface => Place::MethodOfInterface,
    }
}

fn is_interface(kind: ClassKind) -> bool
    ensures { result ≡ spec.is_interface kind }
{
    match kind {
        ClassKind::Class => false,
        ClassKind::Interface => true,
    }
}

/// `Syntax` at a place, unless what stands there fits.
fn unless(fits: bool, at: Span) -> Option<Misfit>
    ensures { result ≡ misfits.unless fits at codes_of.Syntax }
{
    if fits {
        return None;
    }
    Some(Misfit {
        at,
        code: FaultCode::Syntax,
    })
}

fn field_misfit(kind: ClassKind, field: &FieldTree) -> Option<Misfit>
    ensures { result ≡ spec.field_misfit kind field.now }
{
    let misfit = mark_misfit(
        field.annotations.as_slice(),
        field_place(kind),
        field.modifiers.as_slice(),
    );
    if misfit.is_some() {
        return misfit;
    }
    values_misfit(field.variables.as_slice())
}

/// Whether a method stands without a body [JLS 8.4.7, 9.4].
fn is_bodiless(kind: ClassKind, modifiers: &[Modifier]) -> bool
    ensures { result ≡ spec.is_bodiless kind modifiers.now }
{
    has(modifiers, ModifierKind::Abstract) || is_interface(kind)
}

fn has_its_body(bodiless: bool, body: &Option<Boxed<StmtTree>>) -> bool
    ensures { result ≡ spec.has_its_body bodiless body.now }
{
    match body {
        None => bodiless,
        Some(_) => !bodiless,
    }
}

fn method_misfit(kind: ClassKind, method: &MethodTree) -> Option<Misfit>
    ensures { result ≡ spec.method_misfit kind method.now }
{
    let modifiers = method.modifiers.as_slice();
    let misfit = mark_misfit(method.annotations.as_slice(), method_place(kind), modifiers);
    if misfit.is_some() {
        return misfit;
    }
    let misfit = body_misfit(&method.body);
    if misfit.is_some() {
        return misfit;
    }
    unless(
        has_its_body(is_bodiless(kind, modifiers), &method.body),
        method.name.at,
    )
}

fn constructor_misfit(
    kind: ClassKind,
    class: &[u16],
    constructor: &ConstructorTree,
) -> Option<Misfit>
    ensures { result ≡ spec.constructor_misfit kind class.now constructor.now }
{
    let misfit = mark_misfit(
        constructor.annotations.as_slice(),
        Place::Constructor,
        constructor.modifiers.as_slice(),
    );
    if misfit.is_some() {
        return misfit;
    }
    let misfit = block_misfit(constructor.body.get());
    if misfit.is_some() {
        return misfit;
    }
    unless(
        !is_interface(kind) && is_text(constructor.name.name.as_slice(), class),
        constructor.at,
    )
}

fn initializer_misfit(kind: ClassKind, initializer: &InitializerTree) -> Option<Misfit>
    ensures { result ≡ spec.initializer_misfit kind initializer.now }
{
    let misfit = block_misfit(initializer.body.get());
    if misfit.is_some() {
        return misfit;
    }
    unless(!is_interface(kind), initializer.at)
}

/// The first misfit of a member of a class, or an interface, of this name: of its annotations, of its modifiers, of the size of its
/// body or its initializers, and then its own.
///
/// `Profile` stands at the `@` of an annotation that is not `Override`, `Test`, `Before` or `After` [JLS 9.7], and at the `static` of a
/// method of an interface; `Syntax` at another modifier that does not fit [JLS 8.3.1, 8.4.3, 8.8.3, 9.3, 9.4]; `Large` at the first
/// token of a body, or of an initializer of a field, that has more than 20,000 nodes; `Syntax` at the name of a method that has a body where
/// `;` has to stand, or the reverse [JLS 8.4.7, 9.4], and at the first token of a constructor without the name of the class [JLS 8.8]
/// and of a constructor or an initializer block in an interface [JLS 9.1.4].
#[tactic(auto, unfolding(crate::specs::Rules::member_misfit))]
pub fn member_misfit(kind: ClassKind, class: &[u16], member: &MemberTree) -> Option<Misfit>
    ensures { result ≡ spec.member_misfit kind class.now member.now }
{
    match member {
        MemberTree::Field(field) => field_misfit(kind, field),
        MemberTree::Method(method) => method_misfit(kind, method),
        MemberTree::Constructor(constructor) => constructor_misfit(kind, class, constructor),
        MemberTree::Initializer(initializer) => initializer_misfit(kind, initializer),
        MemberTree::Empty { .. } => None,
    }
}
