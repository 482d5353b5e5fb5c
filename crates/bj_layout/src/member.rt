ghost use Rattle.std.specs.Prelude.{OnOk};
ghost use Rattle.bj_tree.specs.declared.member.MemberTree.TheVariants as variants;
ghost use Rattle.bj_writer.specs.Pieces.{Wrote};
ghost use Rattle.bj_layout.specs.Classes.{maybe_default, result_pieces, maybe_static, member_pieces};

use crate::body::{MEMBER, write_block, write_optional_block};
use crate::modifiers::write_prefix;
use crate::names::write_names;
use crate::parameters::write_formals;
use crate::tokens::{keyword, keyword_before, sign, word};
use crate::types::write_type;
use crate::variables::write_variables;
use bj_base::{NoMemory, Span};
use bj_tree::{ConstructorTree, FieldTree, InitializerTree, MemberTree, MethodTree, TypeTree};
use bj_writer::Writer;

/// Writes `default`, where it stands [JLS 9.4.3].
fn write_default(out: &mut Writer, default: &Option<Span>) -> Result<(), NoMemory>
    ensures { OnOk result (Wrote out.old out.new (maybe_default default.now)) }
{
    match default {
        None => Ok(()),
        Some(_) => keyword_before(out, b"default"),
    }
}

/// Writes the result of a method, or `void` [JLS 8.4.5].
fn write_result(out: &mut Writer, of: &Option<TypeTree>) -> Result<(), NoMemory>
    ensures { OnOk result (Wrote out.old out.new (result_pieces of.now)) }
{
    match of {
        None => keyword(out, b"void"),
        Some(of) => write_type(out, of),
    }
}

/// Writes a declaration of fields [JLS 8.3].
fn write_field(out: &mut Writer, tree: &FieldTree) -> Result<(), NoMemory>
    ensures { OnOk result (Wrote out.old out.new (member_pieces (variants.Field tree.now))) }
{
    write_prefix(out, MEMBER, &tree.annotations, &tree.modifiers)?;
    write_type(out, &tree.of)?;
    out.space()?;
    write_variables(out, &tree.variables)?;
    sign(out, b";")?;
    Ok(())
}

/// Writes a method [JLS 8.4].
fn write_method(out: &mut Writer, tree: &MethodTree) -> Result<(), NoMemory>
    ensures { OnOk result (Wrote out.old out.new (member_pieces (variants.Method tree.now))) }
{
    write_prefix(out, MEMBER, &tree.annotations, &tree.modifiers)?;
    write_default(out, &tree.default)?;
    write_result(out, &tree.result)?;
    out.space()?;
    word(out, &tree.name.name)?;
    write_formals(out, &tree.parameters)?;
    write_names(out, b"throws", &tree.throws)?;
    write_optional_block(out, &tree.body)?;
    Ok(())
}

/// Writes a constructor [JLS 8.8].
fn write_constructor(out: &mut Writer, tree: &ConstructorTree) -> Result<(), NoMemory>
    ensures { OnOk result (Wrote out.old out.new (member_pieces (variants.Constructor tree.now))) }
{
    write_prefix(out, MEMBER, &tree.annotations, &tree.modifiers)?;
    word(out, &tree.name.name)?;
    write_formals(out, &tree.parameters)?;
    write_names(out, b"throws", &tree.throws)?;
    out.line(MEMBER)?;
    write_block(out, &tree.body)?;
    Ok(())
}

/// Writes the `static` of an initializer, where it stands, and the end of its line [JLS 8.7].
fn write_static_line(out: &mut Writer, is_static: bool) -> Result<(), NoMemory>
    ensures { OnOk result (Wrote out.old out.new (maybe_static is_static)) }
{
    if is_static {
        keyword(out, b"static")?;
        out.line(MEMBER)?;
    }
    Ok(())
}

/// Writes an initializer [JLS 8.6, 8.7].
fn write_initializer_block(out: &mut Writer, tree: &InitializerTree) -> Result<(), NoMemory>
    ensures { OnOk result (Wrote out.old out.new (member_pieces (variants.Initializer tree.now))) }
{
    write_static_line(out, tree.is_static)?;
    write_block(out, &tree.body)?;
    Ok(())
}

/// Writes a member of a class or an interface [JLS 8.1.6, 9.1.4].
///
/// # Errors
///
/// `NoMemory` where there is no room for it.
pub(crate) fn write_member(out: &mut Writer, tree: &MemberTree) -> Result<(), NoMemory>
    ensures { OnOk result (Wrote out.old out.new (member_pieces tree.now)) }
{
    match tree {
        MemberTree::Field(field) => write_field(out, field),
        MemberTree::Method(method) => write_method(out, method),
        MemberTree::Constructor(constructor) => write_constructor(out, constructor),
        MemberTree::Initializer(initializer) => write_initializer_block(out, initializer),
        MemberTree::Empty { .. } => sign(out, b";"),
    }
}
