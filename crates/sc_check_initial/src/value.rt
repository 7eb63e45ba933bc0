// What one expression gives its place (ANSI 3.5.7).
ghost use Rattle.std.specs.Prelude.{◌≡◌, ◌++◌, OnOk, Ok};
ghost use Rattle.sc_core.specs.declared.statement.AutoInit.TheVariants as item;
ghost use Rattle.sc_check_operand.specs.Types as types;
ghost use Rattle.sc_check_operand.specs.Steps.{Says};
ghost use Rattle.sc_check_declare.specs.Outcomes as outcomes;
ghost use Rattle.sc_check_scope.specs.Steps.{GivesWith};
ghost use Rattle.sc_check_initial.specs.Values as spec;

use crate::tree::is_string;
use sc_base::{Bytes, Items, NoMemory, Shared};
use sc_check_declare::Failure;
use sc_check_expr::expression;
use sc_check_operand::{
    Cause, TypeFault, address_constant, assigned, integer_constant, mismatch, object_size, plain,
    refusal,
};
use sc_check_places::{Place, Text, takes, text_for};
use sc_check_scope::{CheckFault, State, rule};
use sc_core::{AutoInit, CoreExpr, type_of};
use sc_tree::Expr;
use sc_types::{CType, Structs};
use std::alloc::Global;

/// A constant of the value's type (ANSI 3.4): an integer constant expression, or an address constant.
fn is_constant(alloc: Global, line: u32, e: &CoreExpr) -> Result<(), TypeFault>
    ensures { Says (spec.is_constant line e.now) result }
{
    match type_of(e) {
        CType::Int(_, _) => {
            integer_constant(line, e)?;
            Ok(())
        }
        _ => {
            address_constant(alloc, line, e)?;
            Ok(())
        }
    }
}

fn allowed(alloc: Global, constant: bool, line: u32, e: &CoreExpr) -> Result<(), TypeFault>
    ensures { Says (spec.allowed constant line e.now) result }
{
    if constant {
        is_constant(alloc, line, e)
    } else {
        Ok(())
    }
}

fn scalar_piece(at: u32, of: &CType, value: Shared<CoreExpr>) -> Result<AutoInit, TypeFault>
    ensures { Says (Ok (item.Value at (types.plain of.now) value)) result }
{
    let of = plain(of)?;
    Ok(AutoInit::Value(at, of, value))
}

fn scalar(
    alloc: Global,
    structs: &Structs,
    constant: bool,
    line: u32,
    p: &Place,
    e: Shared<CoreExpr>,
) -> Result<AutoInit, TypeFault>
    ensures { Says (spec.scalar structs.now constant line p.now e) result }
{
    let value = assigned(alloc, structs, line, &p.of, e)?;
    allowed(alloc, constant, line, value.get())?;
    scalar_piece(p.at, &p.of, value)
}

fn structure_piece(
    structs: &Structs,
    constant: bool,
    line: u32,
    of: &CType,
    value: Shared<CoreExpr>,
) -> Result<AutoInit, TypeFault>
    ensures { Says (spec.structure_piece structs.now constant line of.now value) result }
{
    if constant {
        return Err(refusal(Cause::NotConstant, line));
    }
    match object_size(structs, of) {
        Some(size) => Ok(AutoInit::Structure(size, value)),
        None => Err(mismatch(line)),
    }
}

fn structure(
    alloc: Global,
    structs: &Structs,
    constant: bool,
    line: u32,
    of: &CType,
    e: Shared<CoreExpr>,
) -> Result<AutoInit, TypeFault>
    ensures { Says (spec.structure structs.now constant line of.now e) result }
{
    let value = assigned(alloc, structs, line, of, e)?;
    structure_piece(structs, constant, line, of, value)
}

/// The piece of a place that takes a value: a scalar, or a whole structure, which is no constant.
fn piece(
    alloc: Global,
    structs: &Structs,
    constant: bool,
    line: u32,
    p: &Place,
    e: Shared<CoreExpr>,
) -> Result<AutoInit, TypeFault>
    ensures { Says (spec.value_piece structs.now constant line p.now e) result }
{
    match &p.of {
        CType::Struct(_, _) => structure(alloc, structs, constant, line, &p.of, e),
        _ => scalar(alloc, structs, constant, line, p, e),
    }
}

/// The bytes of a string from a place's beginning, and zero bytes up to its end.
fn put_text(p: &Place, text: Text, pieces: &mut Items<AutoInit>) -> Result<(), NoMemory>
    ensures { OnOk result (pieces.new ≡ pieces.old ++ spec.text_pieces p.now text) }
{
    let Text {
        length: _,
        bytes,
        zeros,
    } = text;
    pieces.push(AutoInit::Text(p.at, bytes))?;
    if zeros > 0 {
        pieces.push(AutoInit::Zero(p.end.saturating_sub(zeros), zeros))?;
    }
    Ok(())
}

fn text(
    alloc: Global,
    line: u32,
    size: u32,
    bytes: &Bytes,
    p: &Place,
    pieces: &mut Items<AutoInit>,
) -> Result<u32, Failure>
    ensures { outcomes.GivesWith (spec.text line size bytes.now p.now pieces.old) result pieces.new }
{
    let text = text_for(alloc, line, size, bytes)?;
    let length = text.length;
    put_text(p, text, pieces)?;
    Ok(length)
}

/// A string for an array of characters of this size.
fn string(
    alloc: Global,
    line: u32,
    size: u32,
    e: &Expr,
    p: &Place,
    pieces: &mut Items<AutoInit>,
) -> Result<u32, CheckFault>
    ensures { GivesWith (spec.string line size e.now p.now pieces.old) result pieces.new }
{
    match e {
        Expr::String(_, Some(bytes)) => Ok(text(alloc, line, size, bytes, p, pieces)?),
        _ => Err(rule(line)),
    }
}

/// An expression for an array: a string for one of characters.
fn array(
    alloc: Global,
    st: &mut State,
    line: u32,
    size: u32,
    e: &Expr,
    p: &Place,
    pieces: &mut Items<AutoInit>,
) -> Result<u32, CheckFault>
    ensures { GivesWith (spec.array line size e.now p.now (pieces.old, st.old)) result (pieces.new, st.new) }
{
    if is_string(e) && takes(true, &p.of) {
        return string(alloc, line, size, e, p, pieces);
    }
    let core = expression(alloc, st, false, e)?;
    drop(core);
    Err(rule(line))
}

fn single(
    alloc: Global,
    st: &mut State,
    constant: bool,
    line: u32,
    e: &Expr,
    p: &Place,
) -> Result<AutoInit, CheckFault>
    ensures { GivesWith (spec.single constant line e.now p.now st.old) result st.new }
{
    let core = expression(alloc, st, false, e)?;
    Ok(piece(alloc, &st.structs, constant, line, p, core)?)
}

/// The pieces of a place that an expression gives; the answer is the length that it gives an array without size.
pub(crate) fn put_expression(
    alloc: Global,
    st: &mut State,
    constant: bool,
    line: u32,
    e: &Expr,
    p: &Place,
    pieces: &mut Items<AutoInit>,
) -> Result<u32, CheckFault>
    ensures { GivesWith (spec.expression constant line e.now p.now (pieces.old, st.old)) result (pieces.new, st.new) }
{
    match &p.of {
        CType::Array(_, size) => array(alloc, st, line, *size, e, p, pieces),
        _ => {
            let piece = single(alloc, st, constant, line, e, p)?;
            pieces.push(piece)?;
            Ok(0)
        }
    }
}
