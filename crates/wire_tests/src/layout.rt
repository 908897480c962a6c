use jt_layout::{Reader, Writer, all_fit, octets_fit};
use jt_value::{CodecError, Refusal, Why};
use std::alloc::Global;
use std::test::Fail;

fn refusal(inside: u64, why: Why) -> Refusal {
    Refusal { at: 0, inside, why }
}

fn numbers_come(reader: &mut Reader) -> bool {
    let byte = reader.byte();
    let word = reader.word();
    let dword = reader.dword();
    byte == Ok(1) && word == Ok(0x0203) && dword == Ok(0x0405_0607)
}

fn an_octet_comes(alloc: Global, reader: &mut Reader, octet: u8) -> bool {
    match reader.octets(alloc, 1) {
        Ok(copied) => copied.as_slice() == [octet].as_slice(),
        Err(_) => false,
    }
}

fn the_rest_comes(alloc: Global, reader: &mut Reader, octets: &[u8]) -> bool {
    match reader.rest(alloc) {
        Ok(rest) => rest.as_slice() == octets,
        Err(_) => false,
    }
}

#[test]
fn fields_come_in_order(rt: HostRuntime) {
    let body = [1, 2, 3, 4, 5, 6, 7, 0xAA, 0xBB, 0xCC, 0xDD];
    let mut reader = Reader::new(&body);
    assert!(rt; numbers_come(&mut reader));
    assert!(rt; reader.slice(1) == Ok([0xAA].as_slice()));
    assert!(rt; an_octet_comes(rt.alloc(), &mut reader, 0xBB));
    assert!(rt; (reader.place(), reader.left()) == (9, 2));
    assert!(rt; !reader.is_at_end());
    assert!(rt; reader.end() == Err(refusal(9, Why::Trailing)));
    assert!(rt; the_rest_comes(rt.alloc(), &mut reader, &[0xCC, 0xDD]));
    assert!(rt; reader.is_at_end());
    assert!(rt; reader.end() == Ok(()));
}

#[test]
fn a_field_that_passes_the_end_is_truncated_where_it_begins(rt: HostRuntime) {
    let body = [0, 1, 2];
    let mut reader = Reader::new(&body);
    assert!(rt; reader.dword() == Err(refusal(0, Why::Truncated)));
    assert!(rt; reader.word() == Ok(1));
    assert!(rt; reader.word() == Err(refusal(2, Why::Truncated)));
    assert!(rt; reader.slice(2) == Err(refusal(2, Why::Truncated)));
    assert!(rt; reader.byte() == Ok(2));
    assert!(rt; reader.byte() == Err(refusal(3, Why::Truncated)));
    assert!(rt; reader.slice(0) == Ok([].as_slice()));
}

#[test]
fn lists_of_a_count_and_up_to_the_end(rt: HostRuntime) -> Result<(), Fail> {
    let body = [0, 1, 0, 2, 0, 0, 0, 3, 0, 0, 0, 4, 9];
    let mut reader = Reader::new(&body);
    let words = reader.list::<u16>(rt.alloc(), 2)?;
    assert!(rt; words.as_slice() == [1, 2].as_slice());
    let mut inner = reader.within(8)?;
    assert!(rt; inner.place() == 4);
    let dwords = inner.all::<u32>(rt.alloc())?;
    assert!(rt; dwords.as_slice() == [3, 4].as_slice());
    assert!(rt; reader.place() == 12);
    assert!(rt; reader.within(2).err() == Some(refusal(12, Why::Truncated)));
    let short = reader.all::<u16>(rt.alloc()).err();
    assert!(rt; short == Some(CodecError::Refused(refusal(12, Why::Truncated))));
    Ok(())
}

#[test]
fn elements_are_passed_over(rt: HostRuntime) {
    let body = [0, 1, 0, 2, 9];
    let mut reader = Reader::new(&body);
    assert!(rt; reader.pass::<u16>(rt.alloc(), 2) == Ok(()));
    assert!(rt; reader.place() == 4);
    let short = reader.pass::<u32>(rt.alloc(), 1).err();
    assert!(rt; short == Some(CodecError::Refused(refusal(4, Why::Truncated))));
}

#[tactic(auto, unfolding(jt_layout::specs::Layout::number))]
#[test]
fn what_is_written_comes_in_order(rt: HostRuntime) -> Result<(), Fail> {
    let mut writer = Writer::new(rt.alloc());
    writer.byte(1)?;
    writer.word(0x0203)?;
    writer.dword(0x0405_0607)?;
    writer.octets(&[8, 9])?;
    writer.list::<u16>(rt.alloc(), &[0x0A0B, 0x0C0D])?;
    let octets = writer.finish();
    let expected = [1, 2, 3, 4, 5, 6, 7, 8, 9, 10, 11, 12, 13];
    assert!(rt; octets.as_slice() == expected.as_slice());
    assert!(rt; all_fit::<u16>(&[0, 0xFFFF]));
    assert!(rt; all_fit::<u32>(&[0, 0xFFFF_FFFF]));
    assert!(rt; octets_fit(&[1, 2], 2));
    assert!(rt; !octets_fit(&[1, 2], 3));
    Ok(())
}
