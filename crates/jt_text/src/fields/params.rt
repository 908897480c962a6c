//! The fields of bodies that carry parameters, or ask for them.

ghost use Rattle.std.specs.Prelude.{◌≡◌, ◌+◌, ◌*◌, ◌≤◌, ◌++◌, length, string_bytes, codes, OnOk};
ghost use Rattle.std.specs.List.{flat_map};
ghost use Rattle.std.specs.Fmt.{decimal};
ghost use Rattle.std.specs.Io.{StartsWith};
ghost use Rattle.jt_text.specs.ParamFields.{id_text, param_text, params_fields, query_some_fields};
ghost use Rattle.jt_text.specs.Values.{dword_digits};

use crate::line::{Line, ROOM};
use crate::values::{push_number, push_value};
use jt_params::{Param, ParamValue};
use std::alloc::AllocError;

// Octets of an id that is asked for, with its name.
const ID: usize = 14;

// A parameter of one number.
#[tactic(auto, using(std::proofs::Common::append_assoc))]
#[inline(always)]
fn push_number_param(
    text: &mut String,
    line: &mut Line,
    id: u32,
    number: u64,
) -> Result<(), AllocError>
    ensures text { OnOk result (string_bytes text.new ≡ string_bytes text.old
        ++ (codes " param=0x" ++ (dword_digits id ++ (codes ":" ++ decimal number)))) }
    ensures kept { StartsWith (string_bytes text.new) (string_bytes text.old) }
{
    line.clear();
    line.put_named_number(":", number);
    line.put_named_digits(" param=0x", id.to_be_bytes().as_slice());
    line.push_to(text)
}

#[tactic(auto, unfolding(crate::specs::ParamFields::param_text))]
fn push_param(text: &mut String, line: &mut Line, param: &Param) -> Result<(), AllocError>
    ensures text { OnOk result
        (string_bytes text.new ≡ string_bytes text.old ++ param_text param.now) }
    ensures kept { StartsWith (string_bytes text.new) (string_bytes text.old) }
{
    match &param.value {
        ParamValue::Byte(number) => push_number_param(text, line, param.id, *number as u64),
        ParamValue::Word(number) => push_number_param(text, line, param.id, *number as u64),
        ParamValue::Dword(number) => push_number_param(text, line, param.id, *number as u64),
        ParamValue::Text(octets) | ParamValue::Raw(octets) => push_value(
            text,
            line,
            " param=0x",
            param.id.to_be_bytes().as_slice(),
            octets.as_slice(),
        ),
    }
}

fn push_list(text: &mut String, line: &mut Line, params: &[Param]) -> Result<(), AllocError>
    ensures text { OnOk result
        (string_bytes text.new ≡ string_bytes text.old ++ flat_map param_text params.now) }
    ensures kept { StartsWith (string_bytes text.new) (string_bytes text.old) }
{
    for param in params {
        push_param(text, line, param)?;
    }
    Ok(())
}

#[tactic(auto, using(std::proofs::Common::append_assoc), unfolding(crate::specs::ParamFields::params_fields))]
pub(super) fn push_params(
    text: &mut String,
    line: &mut Line,
    params: &[Param],
) -> Result<(), AllocError>
    ensures text { OnOk result
        (string_bytes text.new ≡ string_bytes text.old ++ params_fields params.now) }
    ensures kept { StartsWith (string_bytes text.new) (string_bytes text.old) }
{
    push_number(text, " count=", params.len() as u64)?;
    push_list(text, line, params)
}

#[tactic(auto, unfolding(crate::specs::ParamFields::id_text))]
#[inline(always)]
fn put_id(line: &mut Line, id: u32)
    requires { length line.old + 14 ≤ 512 }
    ensures text { line.new ≡ id_text id ++ line.old }
    ensures room { length line.new ≡ length line.old + 14 }
{
    line.put_named_digits(" id=0x", id.to_be_bytes().as_slice());
}

// The last id is put first.
fn put_ids(line: &mut Line, ids: &[u32])
    requires { length line.old + length ids.now * 14 ≤ 512 }
    ensures { line.new ≡ flat_map id_text ids.now ++ line.old }
{
    let mut left = ids.len();
    while left > 0 {
        left -= 1;
        put_id(line, ids[left]);
    }
}

fn push_ids(text: &mut String, line: &mut Line, ids: &[u32]) -> Result<(), AllocError>
    ensures text { OnOk result
        (string_bytes text.new ≡ string_bytes text.old ++ flat_map id_text ids.now) }
    ensures kept { StartsWith (string_bytes text.new) (string_bytes text.old) }
{
    let mut left = ids;
    while !left.is_empty() {
        let (piece, others) = left.split_at(left.len().min(ROOM / ID));
        line.clear();
        put_ids(line, piece);
        line.push_to(text)?;
        left = others;
    }
    Ok(())
}

#[tactic(auto, using(std::proofs::Common::append_assoc), unfolding(crate::specs::ParamFields::query_some_fields))]
pub(super) fn push_query_some(
    text: &mut String,
    line: &mut Line,
    ids: &[u32],
) -> Result<(), AllocError>
    ensures text { OnOk result
        (string_bytes text.new ≡ string_bytes text.old ++ query_some_fields ids.now) }
    ensures kept { StartsWith (string_bytes text.new) (string_bytes text.old) }
{
    push_number(text, " count=", ids.len() as u64)?;
    push_ids(text, line, ids)
}
