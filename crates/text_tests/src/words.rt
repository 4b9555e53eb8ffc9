//! Numbers and texts, by hand.
use shared_words::{ItemList, number, number_to, push_number, split_once, split_u32, split_u64};
use std::alloc::AllocError;
use std::test::Fail;

/// Words, and the numbers that they spell.
const NUMBERS: [(&[u8], Option<u64>); 15] = [
    (b"0", Some(0)),
    (b"7", Some(7)),
    (b"4096", Some(4096)),
    (b"18446744073709551615", Some(u64::MAX)),
    (b"18446744073709551616", None),
    (b"", None),
    (b"00", None),
    (b"07", None),
    (b"+7", None),
    (b"-7", None),
    (b" 7", None),
    (b"7 ", None),
    (b"1_000", None),
    (b"0x7", None),
    (b"\x37\xff", None),
];

#[test]
fn reads_the_one_spelling_of_a_number(rt: HostRuntime) {
    for (text, want) in NUMBERS {
        assert_eq!(rt; number(text), want);
    }
}

#[test]
fn reads_numbers_to_a_limit(rt: HostRuntime) {
    let read = [
        number_to(b"32", 32),
        number_to(b"33", 32),
        number_to(b"032", 32),
    ];
    assert_eq!(rt; read, [Some(32), None, None]);
}

/// Appends 3, 0 and the greatest number.
fn push_three(text: &mut Vec<u8>) -> Result<(), AllocError> {
    push_number(text, 3)?;
    push_number(text, 0)?;
    push_number(text, u64::MAX)
}

#[test]
fn appends_numbers(rt: HostRuntime) -> Result<(), Fail> {
    let mut text = Vec::from_slice(rt.alloc(), b"table ")?;
    push_three(&mut text)?;
    assert_eq!(rt; text.as_slice(), b"table 3018446744073709551615".as_slice());
    Ok(())
}

/// Bytes, and what stands before their first blank and behind it.
const SPLIT: [(&[u8], Option<(&[u8], &[u8])>); 5] = [
    (b"win 12 9-13", Some((b"win", b"12 9-13"))),
    (b" win", Some((b"", b"win"))),
    (b"win ", Some((b"win", b""))),
    (b"win", None),
    (b"", None),
];

#[test]
fn splits_at_the_first_such_byte(rt: HostRuntime) {
    for (text, want) in SPLIT {
        assert!(rt; split_once(text, b' ') == want);
    }
}

/// Bytes, and the number that their first 4 are, with what stands behind these.
const FOURS: [(&[u8], Option<(u32, &[u8])>); 5] = [
    (b"\x00\x00\x01\x02", Some((258, b""))),
    (b"\xff\xff\xff\xffx", Some((4_294_967_295, b"x"))),
    (b"\x01\x00\x00\x00\x02\x03", Some((16_777_216, b"\x02\x03"))),
    (b"\x01\x00\x00", None),
    (b"", None),
];

/// The same of 8 bytes.
const EIGHTS: [(&[u8], Option<(u64, &[u8])>); 4] = [
    (
        b"\x01\x02\x03\x04\x05\x06\x07\x08\t",
        Some((72_623_859_790_382_856, b"\t")),
    ),
    (
        b"\xff\xff\xff\xff\xff\xff\xff\xff",
        Some((18_446_744_073_709_551_615, b"")),
    ),
    (b"\x01\x00\x00\x00\x00\x00\x00", None),
    (b"", None),
];

#[test]
fn splits_behind_a_number(rt: HostRuntime) {
    for (text, want) in FOURS {
        assert!(rt; split_u32(text) == want);
    }
    for (text, want) in EIGHTS {
        assert!(rt; split_u64(text) == want);
    }
}

/// Whether the list has these items, and gives them back.
fn keeps(list: ItemList<u8>, items: &[u8]) -> (bool, bool) {
    let has = list.as_slice() == items;
    (has, list.into_vec().as_slice() == items)
}

#[test]
fn lists_keep_their_items(rt: HostRuntime) -> Result<(), Fail> {
    let list = ItemList::from_vec(Vec::from_slice(rt.alloc(), b"odd")?);
    assert!(rt; keeps(list, b"odd") == (true, true));
    Ok(())
}
