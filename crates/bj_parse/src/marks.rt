ghost use Rattle.std.specs.Prelude.{◌≡◌, ◌<◌, [], IfOk, None as no_misfit};
ghost use Rattle.bj_expr_tree.specs.declared.types.TypeTree.{TypeTree};
ghost use Rattle.bj_grammar.specs.Given.{text_of, place_of};
ghost use Rattle.bj_grammar.specs.Reader.{Found};
ghost use Rattle.bj_expr.specs.Reading as types;
ghost use Rattle.bj_class.specs.Reading as reading;
ghost use Rattle.bj_parse.specs.Early as spec;

use crate::annotations::{AnnotationsEnd, annotations_end};
use bj_base::NoMemory;
use bj_class::{is_called, is_static_block, modifiers_at};
use bj_expr::{Bounds, type_at};
use bj_grammar::{Stop, Symbol, Terminal, sees};
use bj_rules::{Misfit, Place, field_place, method_place, modifier_misfit};
use bj_tree::{ClassKind, Modifier, TypeTree};
use std::alloc::Global;

/// The misfit of a modifier that fits at none of some places, behind those before it.
fn unfit(owners: &[Place], before: &[Modifier], one: Modifier) -> Option<Misfit>
    ensures { result ≡ spec.unfit_behind before.now one no_misfit owners.now }
{
    let mut told = None;
    for owner in owners {
        let misfit = modifier_misfit(*owner, before, one);
        if misfit.is_none() {
            return None;
        }
        told = misfit;
    }
    told
}

/// The misfit of the first of some modifiers that fits at none of the places that they may belong to.
fn first_unfit(owners: &[Place], modifiers: &[Modifier]) -> Option<Misfit>
    ensures { result ≡ spec.first_unfit owners.now [] modifiers.now }
{
    for (index, one) in modifiers.iter().enumerate() {
        let misfit = unfit(owners, &modifiers[..index], *one);
        if misfit.is_some() {
            return misfit;
        }
    }
    None
}

/// The misfit of the first of some modifiers that does not fit, whatever the member is that they belong to.
fn any_unfit(kind: ClassKind, modifiers: &[Modifier]) -> Option<Misfit>
    ensures { result ≡ spec.first_unfit (spec.any_member kind) [] modifiers.now }
{
    first_unfit(
        &[field_place(kind), method_place(kind), Place::Constructor],
        modifiers,
    )
}

/// The misfit of the first of some modifiers that does not fit, of a field or a method whose type ends before a place.
fn typed_unfit(
    tokens: &[Symbol],
    kind: ClassKind,
    at: usize,
    stop: usize,
    modifiers: &[Modifier],
) -> Option<Misfit>
    ensures { (tree : TypeTree) → result ≡ spec.first_unfit (spec.typed_places kind (text_of tokens.now) stop (Found tree at)) [] modifiers.now }
{
    if at >= stop || at + 1 >= stop {
        return first_unfit(&[field_place(kind), method_place(kind)], modifiers);
    }
    if sees(tokens, at + 1, Terminal::LeftParen) {
        return first_unfit(&[method_place(kind)], modifiers);
    }
    first_unfit(&[field_place(kind)], modifiers)
}

/// Lets a type go. Its drop stands here alone, so that no caller's proof goes through it.
fn let_type_go(_tree: TypeTree) {}

/// The misfit of the first of some modifiers that does not fit, of a field or a method whose type begins at a place.
///
/// # Errors
///
/// `NoMemory` where there is no room for the type.
fn behind_type_unfit(
    alloc: Global,
    tokens: &[Symbol],
    bounds: Bounds,
    kind: ClassKind,
    at: usize,
    stop: usize,
    modifiers: &[Modifier],
) -> Result<Option<Misfit>, NoMemory>
    ensures { IfOk result (λ misfit. misfit ≡ spec.first_unfit (spec.typed_places kind (text_of tokens.now) stop
        (types.type_at (place_of tokens.now) bounds.most (text_of tokens.now) at)) [] modifiers.now) }
{
    match type_at(alloc, tokens, bounds.most, at) {
        Ok((tree, end)) => {
            let misfit = typed_unfit(tokens, kind, end, stop, modifiers);
            let_type_go(tree);
            Ok(misfit)
        }
        Err(Stop::Memory) => Err(NoMemory),
        Err(_) => Ok(first_unfit(&[field_place(kind), method_place(kind)], modifiers)),
    }
}

/// The misfit of the first of some modifiers that does not fit, of what is no method without a type.
///
/// # Errors
///
/// `NoMemory` where there is no room for the type behind them.
fn named_unfit(
    alloc: Global,
    tokens: &[Symbol],
    bounds: Bounds,
    kind: ClassKind,
    at: usize,
    stop: usize,
    modifiers: &[Modifier],
) -> Result<Option<Misfit>, NoMemory>
    requires { at < stop }
    ensures { IfOk result (λ misfit. misfit ≡ spec.first_unfit (spec.named_places (place_of tokens.now) bounds.most kind (text_of tokens.now) at stop) [] modifiers.now) }
{
    if sees(tokens, at, Terminal::Word) && at + 1 >= stop {
        return Ok(any_unfit(kind, modifiers));
    }
    if is_called(tokens, at) {
        return Ok(first_unfit(&[Place::Constructor], modifiers));
    }
    behind_type_unfit(alloc, tokens, bounds, kind, at, stop, modifiers)
}

/// The misfit of the first of some modifiers of a member that fits nowhere, as the tokens between them and the stop tell what it is.
///
/// # Errors
///
/// `NoMemory` where there is no room for the type behind them.
#[tactic(auto, unfolding(crate::specs::Early::member_places))]
fn member_unfit(
    alloc: Global,
    tokens: &[Symbol],
    bounds: Bounds,
    kind: ClassKind,
    at: usize,
    stop: usize,
    modifiers: &[Modifier],
) -> Result<Option<Misfit>, NoMemory>
    ensures { IfOk result (λ misfit. misfit ≡ spec.first_unfit (spec.member_places (place_of tokens.now) bounds.most kind (text_of tokens.now) at stop) [] modifiers.now) }
{
    if at >= stop {
        return Ok(any_unfit(kind, modifiers));
    }
    if sees(tokens, at, Terminal::Void) {
        return Ok(first_unfit(&[method_place(kind)], modifiers));
    }
    named_unfit(alloc, tokens, bounds, kind, at, stop, modifiers)
}

/// The misfit of the first of some modifiers that fits neither before `class` nor before `interface`, or not before the one of these that
/// stands behind them.
#[tactic(auto, unfolding(crate::specs::Early::head_places))]
fn head_unfit(tokens: &[Symbol], at: usize, stop: usize, modifiers: &[Modifier]) -> Option<Misfit>
    ensures { result ≡ spec.first_unfit (spec.head_places (text_of tokens.now) at stop) [] modifiers.now }
{
    if at >= stop {
        return first_unfit(&[Place::Class, Place::Interface], modifiers);
    }
    if sees(tokens, at, Terminal::Interface) {
        return first_unfit(&[Place::Interface], modifiers);
    }
    first_unfit(&[Place::Class], modifiers)
}

/// The misfit of the first modifier of a member from a place on that does not fit.
///
/// # Errors
///
/// `NoMemory` where there is no room for the modifiers or the type behind them.
fn member_modifiers(
    alloc: Global,
    tokens: &[Symbol],
    bounds: Bounds,
    kind: ClassKind,
    at: usize,
    stop: usize,
) -> Result<Option<Misfit>, NoMemory>
    ensures { IfOk result (λ misfit. misfit ≡ spec.modifiers_unfit (λ q. spec.member_places (place_of tokens.now) bounds.most kind (text_of tokens.now) q stop)
        (reading.modifiers (place_of tokens.now) bounds.most (text_of tokens.now) at)) }
{
    match modifiers_at(alloc, tokens, bounds, at) {
        Ok((modifiers, end)) => {
            member_unfit(alloc, tokens, bounds, kind, end, stop, modifiers.as_slice())
        }
        Err(Stop::Memory) => Err(NoMemory),
        Err(_) => Ok(None),
    }
}

/// The misfit of the first modifier before a class from a place on that does not fit.
///
/// # Errors
///
/// `NoMemory` where there is no room for the modifiers.
fn head_modifiers(
    alloc: Global,
    tokens: &[Symbol],
    bounds: Bounds,
    at: usize,
    stop: usize,
) -> Result<Option<Misfit>, NoMemory>
    ensures { IfOk result (λ misfit. misfit ≡ spec.modifiers_unfit (λ q. spec.head_places (text_of tokens.now) q stop)
        (reading.modifiers (place_of tokens.now) bounds.most (text_of tokens.now) at)) }
{
    match modifiers_at(alloc, tokens, bounds, at) {
        Ok((modifiers, end)) => Ok(head_unfit(tokens, end, stop, modifiers.as_slice())),
        Err(Stop::Memory) => Err(NoMemory),
        Err(_) => Ok(None),
    }
}

/// The first annotation or modifier of a member from a place on that does not fit, where the grammar stops the member at another: one
/// that fits in no member that begins with the tokens before the stop.
///
/// # Errors
///
/// `NoMemory` where there is no room for what is read again.
#[tactic(auto, unfolding(crate::specs::Early::early_member, crate::specs::Early::unfit_mark))]
pub fn early_member(
    alloc: Global,
    tokens: &[Symbol],
    bounds: Bounds,
    kind: ClassKind,
    start: usize,
    stop: usize,
) -> Result<Option<Misfit>, NoMemory>
    ensures { IfOk result (λ misfit. misfit ≡ spec.early_member (place_of tokens.now) bounds.most kind (text_of tokens.now) start stop) }
{
    if is_static_block(tokens, start) && start < stop && start + 1 < stop {
        return Ok(None);
    }
    match annotations_end(alloc, tokens, bounds, start)? {
        AnnotationsEnd::Unfit(misfit) => Ok(Some(misfit)),
        AnnotationsEnd::Behind(at) => member_modifiers(alloc, tokens, bounds, kind, at, stop),
        AnnotationsEnd::Within => Ok(None),
    }
}

/// The same of what stands before the members of a class or an interface.
///
/// # Errors
///
/// `NoMemory` where there is no room for what is read again.
#[tactic(auto, unfolding(crate::specs::Early::early_head, crate::specs::Early::unfit_mark))]
pub fn early_head(
    alloc: Global,
    tokens: &[Symbol],
    bounds: Bounds,
    start: usize,
    stop: usize,
) -> Result<Option<Misfit>, NoMemory>
    ensures { IfOk result (λ misfit. misfit ≡ spec.early_head (place_of tokens.now) bounds.most (text_of tokens.now) start stop) }
{
    match annotations_end(alloc, tokens, bounds, start)? {
        AnnotationsEnd::Unfit(misfit) => Ok(Some(misfit)),
        AnnotationsEnd::Behind(at) => head_modifiers(alloc, tokens, bounds, at, stop),
        AnnotationsEnd::Within => Ok(None),
    }
}
