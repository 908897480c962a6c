ghost use Rattle.std.specs.Prelude.{◌≡◌, length, IfOk};

use jt_params::{
    Kind, Param, ParamError, ParamTable, ParamValue, judge_params, judge_params_reply,
    judge_query_some, kind_of, params_fit, params_reply_fits, query_some_fits, read_params,
    read_params_reply, read_query_some, write_params, write_params_reply, write_query_some,
};
use jt_value::{CodecError, Memory, Octets, Refusal, Seq, Why};
use std::alloc::Global;
use std::process::Abort;

// The answer to question 7: 60 under 0x0001, and `abc` under 0x0013.
const ANSWER: [u8; 20] = *b"\0\x07\x02\0\0\0\x01\x04\0\0\0\x3c\0\0\0\x13\x03abc";

// Eleven parameters, of kinds that go by id and length.
const KINDS: [u8; 82] =
    *b"\x0b\0\0\0\x01\x02\0\x3c\0\0\0\x18\x04\0\0\x19\xd0\0\0\0\x80\x04\0\0\0\x01\0\0\0\x81\x02\0\x2c\
\0\0\0\x82\x04\0\0\x01\x2c\0\0\0\x84\x01\x02\0\0\0\x84\x02\0\x02\0\0\0\x83\0\0\0\0\x10\x03abc\
\0\0\0\x04\x04\0\0\0\x01\0\0\xf0\x01\0";

// A question for 0x0001 and 0x8000_0013.
const QUESTION: [u8; 9] = *b"\x02\0\0\0\x01\x80\0\0\x13";

fn refused(inside: u64, why: Why) -> CodecError {
    CodecError::Refused(Refusal { at: 0, inside, why })
}

fn dword(id: u32, number: u32) -> Param {
    Param {
        id,
        value: ParamValue::Dword(number),
    }
}

// Parameters under the ids from 1 on.
fn many(alloc: Global, count: u16) -> Result<Seq<Param>, Memory> {
    let mut params = Seq::new(alloc);
    for id in 1..=u32::from(count) {
        params.push(dword(id, 7))?;
    }
    Ok(params)
}

fn is_dword(param: Option<&Param>, wanted: u32, count: u32) -> bool {
    matches!(param, Some(Param { id, value: ParamValue::Dword(number) }) if *id == wanted && *number == count)
}

fn is_text(param: Option<&Param>, wanted: u32, octets: &[u8]) -> bool {
    matches!(param, Some(Param { id, value: ParamValue::Text(text) }) if *id == wanted && text.as_slice() == octets)
}

// Why the answer to a query is refused.
fn refusal_of_reply(alloc: Global, body: &[u8]) -> Option<CodecError> {
    read_params_reply(alloc, body).err()
}

#[test]
fn an_answer_with_a_number_and_a_text(rt: HostRuntime) {
    let (reply, params) = read_params_reply(rt.alloc(), &ANSWER).expect(&rt, "a body");
    assert!(rt; reply == 7);
    assert!(rt; params.len() == 2);
    assert!(rt; is_dword(params.get(0), 0x0001, 60));
    assert!(rt; is_text(params.get(1), 0x0013, b"abc"));
    assert!(rt; params_reply_fits(reply, &params));
    let written = write_params_reply(rt.alloc(), reply, &params).expect(&rt, "octets");
    assert!(rt; written.as_slice() == ANSWER.as_slice());
}

#[test]
fn an_answer_that_is_cut(rt: HostRuntime) {
    let rows: &[(usize, u64)] = &[(1, 0), (2, 2), (6, 3), (7, 7), (11, 8), (12, 12), (19, 17)];
    for &(length, inside) in rows {
        assert!(rt; length <= 20);
        let refusal = refusal_of_reply(rt.alloc(), &ANSWER[..length]);
        assert!(rt; refusal == Some(refused(inside, Why::Truncated)));
    }
}

// The kind that a value shows.
fn shown(value: &ParamValue) -> Kind {
    match value {
        ParamValue::Byte(_) => Kind::Byte,
        ParamValue::Word(_) => Kind::Word,
        ParamValue::Dword(_) => Kind::Dword,
        ParamValue::Text(_) => Kind::Text,
        ParamValue::Raw(_) => Kind::Raw,
    }
}

// Whether a parameter has this id and shows this kind.
fn shows(param: Option<&Param>, id: u32, kind: Kind) -> bool {
    match param {
        Some(param) => param.id == id && shown(&param.value) == kind,
        None => false,
    }
}

#[test]
fn kinds_by_id_and_length(rt: HostRuntime) {
    let rows: &[(usize, u32, Kind)] = &[
        (0, 0x0001, Kind::Raw),
        (1, 0x0018, Kind::Dword),
        (2, 0x0080, Kind::Dword),
        (3, 0x0081, Kind::Word),
        (4, 0x0082, Kind::Raw),
        (5, 0x0084, Kind::Byte),
        (6, 0x0084, Kind::Raw),
        (7, 0x0083, Kind::Text),
        (8, 0x0010, Kind::Raw),
        (9, 0x0004, Kind::Raw),
        (10, 0xF001, Kind::Raw),
    ];
    let params = read_params(rt.alloc(), &KINDS).expect(&rt, "a body");
    for &(place, id, kind) in rows {
        assert!(rt; shows(params.get(place), id, kind));
    }
    assert!(rt; params.len() == 11);
}

#[test]
fn parameters_of_all_kinds_are_written_back(rt: HostRuntime) {
    let params = read_params(rt.alloc(), &KINDS).expect(&rt, "a body");
    assert!(rt; params_fit(&params));
    let written = write_params(rt.alloc(), &params).expect(&rt, "octets");
    assert!(rt; written.as_slice() == KINDS.as_slice());
}

#[test]
fn no_parameters(rt: HostRuntime) {
    let none = read_params(rt.alloc(), b"\0").expect(&rt, "a body");
    assert!(rt; none.is_empty());
    let trailing = read_params(rt.alloc(), b"\0\0").err();
    assert!(rt; trailing == Some(refused(1, Why::Trailing)));
}

#[test]
fn bodies_of_parameters_are_judged(rt: HostRuntime) {
    assert!(rt; judge_params(rt.alloc(), b"\x01\0\0\0\x01\x04\0\0\0\x3c") == Ok(()));
    assert!(rt; judge_params_reply(rt.alloc(), b"\0\x07\0") == Ok(()));
    assert!(rt; judge_query_some(rt.alloc(), b"\x01\0\0\0\x01") == Ok(()));
}

#[test]
fn bodies_of_parameters_are_judged_bad(rt: HostRuntime) {
    let truncated = judge_params(rt.alloc(), b"\x01\0\0\0\x01\x04\0\0\0").err();
    assert!(rt; truncated == Some(refused(6, Why::Truncated)));
    let trailing = judge_params_reply(rt.alloc(), b"\0\x07\0\0").err();
    assert!(rt; trailing == Some(refused(3, Why::Trailing)));
    let truncated = judge_query_some(rt.alloc(), b"\x02\0\0\0\x01\0\0\0").err();
    assert!(rt; truncated == Some(refused(5, Why::Truncated)));
}

#[test]
fn the_table_of_kinds(rt: HostRuntime) {
    let rows: &[(u32, Kind)] = &[
        (0x0001, Kind::Dword),
        (0x0002, Kind::Dword),
        (0x0003, Kind::Dword),
        (0x0018, Kind::Dword),
        (0x0029, Kind::Dword),
        (0x0055, Kind::Dword),
        (0x0080, Kind::Dword),
        (0x0081, Kind::Word),
        (0x0082, Kind::Word),
        (0x0083, Kind::Text),
        (0x0084, Kind::Byte),
        (0x0013, Kind::Text),
        (0, Kind::Raw),
        (0x0004, Kind::Raw),
        (0x0085, Kind::Raw),
        (0x0001_0001, Kind::Raw),
        (0xFFFF_FFFF, Kind::Raw),
    ];
    for &(id, kind) in rows {
        assert!(rt; kind_of(id) == kind);
    }
}

#[test]
fn a_question_for_some(rt: HostRuntime) {
    let ids = read_query_some(rt.alloc(), &QUESTION).expect(&rt, "a body");
    assert!(rt; ids.as_slice() == [0x0001, 0x8000_0013].as_slice());
    assert!(rt; query_some_fits(&ids));
    let written = write_query_some(rt.alloc(), &ids).expect(&rt, "octets");
    assert!(rt; written.as_slice() == QUESTION.as_slice());
}

#[test]
fn a_question_of_a_wrong_length(rt: HostRuntime) {
    let truncated = read_query_some(rt.alloc(), &QUESTION[..8]).err();
    assert!(rt; truncated == Some(refused(5, Why::Truncated)));
    let trailing = read_query_some(rt.alloc(), b"\x01\0\0\0\x01\0").err();
    assert!(rt; trailing == Some(refused(5, Why::Trailing)));
}

fn list_of(rt: &impl Abort, alloc: Global, table: &ParamTable) -> Seq<Param> {
    table.list(alloc).expect(rt, "a list")
}

fn count_of(rt: &impl Abort, alloc: Global, table: &ParamTable) -> usize {
    list_of(rt, alloc, table).len()
}

// Sets the parameters under the ids from 1 on.
fn set_many(
    rt: &impl Abort,
    alloc: Global,
    table: &mut ParamTable,
    count: u16,
) -> Result<(), ParamError> {
    let params = many(alloc, count).expect(rt, "parameters");
    assert!(rt; params.len() == usize::from(count));
    table.set_all(&params)
}

// Sets two parameters.
fn set_two(
    rt: &impl Abort,
    alloc: Global,
    table: &mut ParamTable,
    params: [Param; 2],
) -> Result<(), ParamError> {
    let params = Vec::from_array(alloc, params).expect(rt, "parameters");
    table.set_all(&Seq::from_vec(params))
}

fn set_three(rt: &impl Abort, alloc: Global, table: &mut ParamTable) -> Result<(), ParamError> {
    let params = [dword(0x0003, 5), dword(0x0001, 60), dword(0x0003, 3)];
    let params = Vec::from_array(alloc, params).expect(rt, "parameters");
    table.set_all(&Seq::from_vec(params))
}

fn lists_the_later(rt: &impl Abort, alloc: Global, table: &ParamTable) -> bool {
    let listed = list_of(rt, alloc, table);
    assert!(rt; listed.len() == 2);
    is_dword(listed.get(0), 0x0001, 60) && is_dword(listed.get(1), 0x0003, 3)
}

fn selects_the_later(rt: &impl Abort, alloc: Global, table: &ParamTable) -> bool {
    let ids = Vec::from_array(alloc, [0x0003, 0x0002, 0x0001]).expect(rt, "ids");
    let ids = Seq::from_vec(ids);
    let selected = table.select(alloc, &ids).expect(rt, "parameters");
    assert!(rt; selected.len() == 2);
    is_dword(selected.get(0), 0x0003, 3) && is_dword(selected.get(1), 0x0001, 60)
}

#[test]
fn a_later_parameter_replaces_an_earlier_one(rt: HostRuntime) {
    let mut table = ParamTable::new(rt.alloc());
    assert!(rt; count_of(&rt, rt.alloc(), &table) == 0);
    assert!(rt; set_three(&rt, rt.alloc(), &mut table) == Ok(()));
    assert!(rt; lists_the_later(&rt, rt.alloc(), &table));
    assert!(rt; selects_the_later(&rt, rt.alloc(), &table));
    assert!(rt; table.dword(0x0001) == Some(60));
    assert!(rt; table.dword(0x0002) == None);
}

// A parameter as the only one of a list.
fn only(alloc: Global, id: u32, octets: &[u8]) -> Result<Seq<Param>, Memory>
    ensures { IfOk result (λ list. length list ≡ 1) }
{
    let value = ParamValue::Raw(Octets::from_vec(Vec::from_slice(alloc, octets)?));
    Ok(Seq::from_vec(Vec::from_array(alloc, [Param { id, value }])?))
}

// Sets a copy of raw octets under an id.
fn set_raw(
    rt: &impl Abort,
    alloc: Global,
    table: &mut ParamTable,
    id: u32,
    octets: &[u8],
) -> Result<(), ParamError> {
    let raw = only(alloc, id, octets).expect(rt, "a parameter");
    let copied = raw.copy(alloc).expect(rt, "a copy");
    table.set_all(&copied)
}

fn raw_fits(rt: &impl Abort, alloc: Global, id: u32, octets: &[u8]) -> bool {
    let raw = only(alloc, id, octets).expect(rt, "a parameter");
    params_fit(&raw)
}

// A value of another length is no number, and under an id of the kind raw octets of its length are none of its values.
#[test]
fn raw_octets_under_an_id_of_a_number(rt: HostRuntime) {
    let mut table = ParamTable::new(rt.alloc());
    let params = [dword(0x0001, 60), dword(0x0003, 3)];
    assert!(rt; set_two(&rt, rt.alloc(), &mut table, params) == Ok(()));
    assert!(rt; set_raw(&rt, rt.alloc(), &mut table, 0x0001, &[0, 60]) == Ok(()));
    assert!(rt; table.dword(0x0001) == None);
    assert!(rt; count_of(&rt, rt.alloc(), &table) == 2);
    assert!(rt; !raw_fits(&rt, rt.alloc(), 0x0001, &[0, 0, 0, 60]));
}

fn one_more_is_refused(rt: &impl Abort, alloc: Global, table: &mut ParamTable) -> bool {
    let refusal = set_two(rt, alloc, table, [dword(1, 8), dword(1000, 8)]);
    assert!(rt; refusal == Err(ParamError::TooMany(256)));
    assert!(rt; count_of(rt, alloc, table) == 255);
    table.dword(1) == Some(7) && table.dword(1000) == None
}

fn those_it_has_are_set_again(rt: &impl Abort, alloc: Global, table: &mut ParamTable) -> bool {
    let set = set_two(rt, alloc, table, [dword(255, 9), dword(1, 9)]);
    assert!(rt; set == Ok(()));
    table.dword(255) == Some(9) && table.dword(254) == Some(7)
}

#[test]
fn a_table_has_at_most_255(rt: HostRuntime) {
    let mut table = ParamTable::new(rt.alloc());
    assert!(rt; set_many(&rt, rt.alloc(), &mut table, 255) == Ok(()));
    assert!(rt; count_of(&rt, rt.alloc(), &table) == 255);
    assert!(rt; one_more_is_refused(&rt, rt.alloc(), &mut table));
    let refusal = set_many(&rt, rt.alloc(), &mut table, 65_535);
    assert!(rt; refusal == Err(ParamError::TooMany(65_535)));
    assert!(rt; those_it_has_are_set_again(&rt, rt.alloc(), &mut table));
}
