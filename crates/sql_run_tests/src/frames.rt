//! Frames of phone 013912345678, of 2013 where nothing else is said, and their letters. The platform's secret is 3132, which
//! makes the codes 31a99b84e4c08ee0 and, in the edition of 2019, 070f7e833dd467ee.

use jt_value::Memory;
use std::alloc::Global;
use terminal_tests::frames_in;

/// Frames, three words each: the letter by which rows name it (capitals are the terminal's), what it is, and its octets.
///
/// The terminal's registration has serial 0 and its first authentication serial 1; the others have their serials behind them, as
/// units have. The units 2, 3 and 4 have fixes at the latitudes 0, 1 and 2, `other_unit_2` one at the latitude 9, and the batch
/// those of the three. The strange ones are of phone 013912345679, with the plate and terminal id of the other phone, and with its
/// code. Of 2019 are an authentication by the code of 2013, of serial 3, a registration of serial 4, an authentication of serial 5
/// and the unit 2.
///
/// The platform's frames have a connection's serials, from 0 on. `let_in` answers the authentication of serial 1 behind the reply
/// to the registration, and `accepted_2` to `accepted_4` the units behind that. `accepted_batch` stands there, `repeated_batch`
/// and `accepted_4_second` behind the response to an authentication of another connection. `given_up` answers the deregistration,
/// and `not_live` the unit 4 that comes behind that. `let_in_3` and `repeated_2`, and `let_in_5`, `repeated_3` and `repeated_4`,
/// are on other connections. `fenced_2` refuses the unit 2 as the first frame of a session, and `accepted_first` accepts it so.
const FRAMES: &str = "
    R registration                 7e0100002a0139123456780000000000000000000000000000000000000000000000000000000000000031323334353637014a54383038047e
    A authentication               7e01020010013912345678000133316139396238346534633038656530257e
    B authentication_3             7e01020010013912345678000333316139396238346534633038656530277e
    C authentication_5             7e01020010013912345678000533316139396238346534633038656530217e
    U unit_2                       7e0200001c013912345678000200000000000000030000000006bc3e40000000000000240101000000cf7e
    V unit_3                       7e0200001c013912345678000300000000000000030000000106bc3e40000000000000240101000000cf7e
    W unit_4                       7e0200001c013912345678000400000000000000030000000206bc3e40000000000000240101000000cb7e
    X other_unit_2                 7e0200001c013912345678000200000000000000030000000906bc3e40000000000000240101000000c67e
    E batch_2                      7e0704005d0139123456780002000301001c00000000000000030000000006bc3e40000000000000240101000000001c00000000000000030000000106bc3e40000000000000240101000000001c00000000000000030000000206bc3e40000000000000240101000000927e
    D deregistration               7e000300000139123456780003307e
    S strange_registration         7e0100002a0139123456790000000000000000000000000000000000000000000000000000000000000031323334353637014a54383038057e
    T strange_authentication       7e01020010013912345679000133316139396238346534633038656530247e
    G other_edition_authentication 7e010240340100000000013912345678000310333161393962383465346330386565300000000000000000000000000000000000000000000000000000000000000000000000527e
    H registration_2019            7e0100405101000000000139123456780004000000000000000000000000000000000000000000000000000000000000000000000000000000000000000000313233343536370000000000000000000000000000000000000000000000014a543830383a7e
    I authentication_2019          7e0102403401000000000139123456780005103037306637653833336464343637656500000000000000000000000000000000000000000000000000000000000000000000005d7e
    J unit_2019                    7e0200401c0100000000013912345678000200000000000000030000000006bc3e400000000000002401010000008e7e
    r registered                   7e81000013013912345678000000000033316139396238346534633038656530a57e
    a let_in                       7e8001000501391234567800010001010200b77e
    u accepted_2                   7e8001000501391234567800020002020000b67e
    v accepted_3                   7e8001000501391234567800030003020000b67e
    w accepted_4                   7e8001000501391234567800040004020000b67e
    e accepted_batch               7e8001000501391234567800020002070400b77e
    m repeated_batch               7e8001000501391234567800010002070400b47e
    l accepted_4_second            7e8001000501391234567800010004020000b37e
    d given_up                     7e8001000501391234567800020003000300b67e
    n not_live                     7e8001000501391234567800030004020001b07e
    b let_in_3                     7e8001000501391234567800000003010200b47e
    p repeated_2                   7e8001000501391234567800010002020000b57e
    c let_in_5                     7e8001000501391234567800000005010200b27e
    q repeated_3                   7e8001000501391234567800020003020000b77e
    k repeated_4                   7e8001000501391234567800030004020000b17e
    f fenced_2                     7e8001000501391234567800000002020001b57e
    o accepted_first               7e8001000501391234567800000002020000b47e
    x not_let_in                   7e8001000501391234567800000001010201b77e
    s strange_refused              7e810000030139123456790000000001b27e
    t strange_not_let_in           7e8001000501391234567900000001010201b67e
    g other_edition_not_let_in     7e80014005010000000001391234567800000003010201f47e
    h registered_2019              7e810040130100000000013912345678000000040030373066376538333364643436376565e97e
    i let_in_2019                  7e80014005010000000001391234567800010005010200f27e
    j repeated_2019                7e80014005010000000001391234567800020002020000f77e";

/// The octets of these letters' frames, one behind the other.
pub fn frames(alloc: Global, letters: &[u8]) -> Result<Vec<u8>, Memory> {
    frames_in(alloc, FRAMES, letters)
}

/// The letters of a word; `-` is none.
pub fn letters_in(word: &str) -> &[u8] {
    if word == "-" { b"" } else { word.as_bytes() }
}
