// Single blocks: the check word, sealing, opening.
use blocks::check::check_word;
use blocks::headers::Header;
use blocks::kinds::{Kind, UnknownKind};
use blocks::layout::{BLOCK, PAYLOAD};
use blocks::opening::open;
use blocks::refusals::{BlockRefusal, SealRefusal};
use blocks::sealing::{seal, seal_block};
use questions::refusals::Refusal;

#[test]
fn check_words_worked_by_hand(rt: HostRuntime) {
    assert_eq!(rt; check_word(&[]), 0);
    assert_eq!(rt; check_word(&[1, 2, 3]), 0x443);
    // 2^7 moves up by five bits for each zero byte: the fifth brings it round to 1
    assert_eq!(rt; check_word(&[0x80, 0, 0, 0, 0]), 0x0800_0000);
    assert_eq!(rt; check_word(&[0x80, 0, 0, 0, 0, 0]), 1);
    assert_eq!(rt; check_word(&[0xff, 0xff]), 0x1f1f);
}

#[test]
fn sealed_block_lies_as_documented(rt: HostRuntime) {
    let block = seal_block(Kind::Code, 0x0102, &[0u8; PAYLOAD]);
    assert_eq!(rt;
        Header::read(&block),
        Some(Header {
            kind: 1,
            edition: 1,
            number: 0x0102,
            check: 0x2200_0084,
        })
    );
    let zero = seal_block(Kind::Code, 0, &[0u8; PAYLOAD]);
    assert_eq!(rt; zero[508], 0);
    assert_eq!(rt; zero[509], 0);
    assert_eq!(rt; zero[510], 0);
    assert_eq!(rt; zero[511], 0x84);
}

#[test]
fn sealing_refuses_in_order_and_leaves_the_target(rt: HostRuntime) {
    let payload = [7u8; PAYLOAD];
    let mut target = [9u8; BLOCK];
    assert_eq!(rt;
        seal(0, 5, &payload[1..], &mut target[1..]),
        Err(SealRefusal::UnknownKind)
    );
    assert_eq!(rt;
        seal(3, 5, &payload, &mut target),
        Err(SealRefusal::UnknownKind)
    );
    assert_eq!(rt;
        seal(1, 5, &payload[1..], &mut target[1..]),
        Err(SealRefusal::PayloadLength)
    );
    assert_eq!(rt;
        seal(2, 5, &payload, &mut target[1..]),
        Err(SealRefusal::TargetLength)
    );
    assert_eq!(rt; target, [9u8; BLOCK]);
    assert_eq!(rt; seal(2, 5, &payload, &mut target), Ok(()));
    assert_eq!(rt; target, seal_block(Kind::Table, 5, &payload));
}

#[test]
fn opening_refuses_in_order(rt: HostRuntime) {
    let block = seal_block(Kind::Table, 0x0102, &[7u8; PAYLOAD]);
    assert_eq!(rt; refused(&block, Kind::Table, 0x0102), None);
    assert_eq!(rt;
        refused(&block[1..], Kind::Code, 1),
        Some(BlockRefusal::NotWhole)
    );
    let mut bad = block;
    bad[511] ^= 1;
    assert_eq!(rt;
        refused(&bad, Kind::Table, 0x0102),
        Some(BlockRefusal::WrongCheck)
    );
    bad[11] = 1;
    assert_eq!(rt;
        refused(&bad, Kind::Table, 0x0102),
        Some(BlockRefusal::NotZero)
    );
    assert_eq!(rt;
        refused(&bad, Kind::Table, 0x0201),
        Some(BlockRefusal::WrongPlace)
    );
    bad[1] = 2;
    assert_eq!(rt;
        refused(&bad, Kind::Table, 0x0201),
        Some(BlockRefusal::WrongEdition)
    );
    assert_eq!(rt;
        refused(&bad, Kind::Code, 0x0201),
        Some(BlockRefusal::WrongKind)
    );
}

fn refused(bytes: &[u8], kind: Kind, place: u16) -> Option<BlockRefusal> {
    open(bytes, kind, place).err()
}

#[test]
fn refusals_have_their_numbers(rt: HostRuntime) {
    assert_eq!(rt; SealRefusal::UnknownKind.number(), 1);
    assert_eq!(rt; SealRefusal::PayloadLength.number(), 2);
    assert_eq!(rt; SealRefusal::TargetLength.number(), 3);
    assert_eq!(rt; BlockRefusal::NotWhole.number(), 4);
    assert_eq!(rt; BlockRefusal::WrongKind.number(), 5);
    assert_eq!(rt; BlockRefusal::WrongEdition.number(), 6);
    assert_eq!(rt; BlockRefusal::WrongPlace.number(), 7);
    assert_eq!(rt; BlockRefusal::NotZero.number(), 8);
    assert_eq!(rt; BlockRefusal::WrongCheck.number(), 9);
}

#[test]
fn bytes_are_taken_for_kinds(rt: HostRuntime) {
    assert_eq!(rt; Kind::try_from(1), Ok(Kind::Code));
    assert_eq!(rt; Kind::try_from(u8::from(Kind::Table)), Ok(Kind::Table));
    assert_eq!(rt; Kind::try_from(3), Err(UnknownKind { byte: 3 }));
}

#[test]
fn damage_at_any_byte_is_refused(rt: HostRuntime) {
    let block = seal_block(Kind::Table, 258, &[0xa5u8; PAYLOAD]);
    for place in 0..BLOCK {
        for bit in 0..8u32 {
            let mut damaged = block;
            damaged[place] ^= 1u8 << bit;
            assert!(rt; open(&damaged, Kind::Table, 258).is_err());
        }
    }
}
