ghost use Rattle.std.specs.Prelude.{◌≡◌, IfOk};
ghost use Rattle.bj_grammar.specs.Given.{text_of, place_of};
ghost use Rattle.bj_class.specs.Reading as reading;
ghost use Rattle.bj_parse.specs.Early as spec;

use bj_base::NoMemory;
use bj_class::annotation_at;
use bj_expr::Bounds;
use bj_grammar::{Stop, Symbol, Terminal, sees};
use bj_rules::{Misfit, annotation_misfit};
use bj_tree::AnnotationTree;
use std::alloc::Global;

/// What reading annotations one after another comes to.
#[derive(Clone, Copy)]
pub enum AnnotationsEnd {
    /// One of them is not the profile's.
    Unfit(Misfit),
    /// All fit, and this is the place behind them.
    Behind(usize),
    /// The grammar stops one of them.
    Within,
}

/// Lets an annotation go. Its drop stands here alone, so that no caller's proof goes through it.
fn let_annotation_go(_annotation: AnnotationTree) {}

/// What reading one annotation comes to.
///
/// # Errors
///
/// `NoMemory` where there is no room for it.
fn one_end(
    alloc: Global,
    tokens: &[Symbol],
    bounds: Bounds,
    at: usize,
) -> Result<AnnotationsEnd, NoMemory>
    ensures { IfOk result (λ end. end ≡ spec.annotation_end (reading.annotation (place_of tokens.now) bounds.most (text_of tokens.now) at)) }
{
    match annotation_at(alloc, tokens, bounds, at) {
        Ok((annotation, next)) => {
            let misfit = annotation_misfit(&annotation);
            let_annotation_go(annotation);
            match misfit {
                Some(misfit) => Ok(AnnotationsEnd::Unfit(misfit)),
                None => Ok(AnnotationsEnd::Behind(next)),
            }
        }
        Err(Stop::Memory) => Err(NoMemory),
        Err(_) => Ok(AnnotationsEnd::Within),
    }
}

/// What reading the annotations from a place on comes to.
///
/// # Errors
///
/// `NoMemory` where there is no room for one of them.
pub fn annotations_end(
    alloc: Global,
    tokens: &[Symbol],
    bounds: Bounds,
    start: usize,
) -> Result<AnnotationsEnd, NoMemory>
    ensures { IfOk result (λ end. end ≡ spec.annotations_end (place_of tokens.now) bounds.most bounds.most (text_of tokens.now) start) }
{
    let mut at = start;
    for _turn in 0..bounds.most {
        if !sees(tokens, at, Terminal::At) {
            return Ok(AnnotationsEnd::Behind(at));
        }
        match one_end(alloc, tokens, bounds, at)? {
            AnnotationsEnd::Behind(next) => at = next,
            end => return Ok(end),
        }
    }
    if sees(tokens, at, Terminal::At) {
        return Ok(AnnotationsEnd::Within);
    }
    Ok(AnnotationsEnd::Behind(at))
}
