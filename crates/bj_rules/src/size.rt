ghost use Rattle.std.specs.Prelude.{◌≡◌, ℕ, min};
ghost use Rattle.bj_rules.specs.Rules as spec;

use crate::Misfit;
use crate::start::{expr_start, stmt_start};
use bj_base::{FaultCode, Span};
use bj_tree::{ExprTree, StmtTree, VariableTree, expr_nodes, nodes};
use sqlite_items::Boxed;

/// The most nodes of a body, and of an initializer of a field.
const MOST_NODES: u32 = 20_000;

/// The misfit of what has so many nodes, of which a `u32` counts as many as it can.
fn size_misfit(count: u32, at: Span) -> Option<Misfit>
    ensures { (nodes : ℕ) → count ≡ min nodes 4294967295 → result ≡ spec.size_misfit nodes at }
{
    if count <= MOST_NODES {
        return None;
    }
    Some(Misfit {
        at,
        code: FaultCode::Large,
    })
}

/// The misfit of a block: `Large` at its first token where it has more than 20,000 nodes.
pub fn block_misfit(block: &StmtTree) -> Option<Misfit>
    ensures { result ≡ spec.block_misfit block.now }
{
    size_misfit(nodes(block), stmt_start(block))
}

/// The misfit of a body that may be missing.
pub fn body_misfit(body: &Option<Boxed<StmtTree>>) -> Option<Misfit>
    ensures { result ≡ spec.body_misfit body.now }
{
    match body {
        None => None,
        Some(block) => block_misfit(block.get()),
    }
}

fn value_misfit(value: &Option<Boxed<ExprTree>>) -> Option<Misfit>
    ensures { result ≡ spec.value_misfit value.now }
{
    match value {
        None => None,
        Some(value) => size_misfit(expr_nodes(value.get()), expr_start(value.get())),
    }
}

/// The misfit of the initializers of fields: `Large` at the first token of the first that has more than 20,000 nodes.
pub fn values_misfit(variables: &[VariableTree]) -> Option<Misfit>
    ensures { result ≡ spec.values_misfit variables.now }
{
    for variable in variables {
        let misfit = value_misfit(&variable.init);
        if misfit.is_some() {
            return misfit;
        }
    }
    None
}
