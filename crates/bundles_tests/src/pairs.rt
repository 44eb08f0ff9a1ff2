// Every pair of bytes, against counts worked out by hand.
use branches::checks::Check;
use codes::bytes::Coded;
use codes::numbers::Numbered;
use moves::moving::Move;
use operations::operation::Operation;
use std::process::Abort;

// How many argument bytes are lawful beside an operation byte.
fn lawful_arguments(number: u8) -> usize {
    (0..=u8::MAX)
        .filter(|argument| Operation::decode(&[number, *argument]).is_some())
        .count()
}

// Whether each lawful one comes back.
fn arguments_come_back(number: u8) -> bool {
    (0..=u8::MAX).all(|argument| match Operation::decode(&[number, argument]) {
        Some(operation) => operation.encode() == [number, argument],
        None => true,
    })
}

// nop 1; push and <# 256; or to umul 32; pick 28; pin 8; 17 to 50 one each; the rest none.
fn expected_arguments(number: u8) -> usize {
    match number {
        0 => 1,
        1 | 2 => 256,
        3..=14 => 32,
        15 => 28,
        16 => 8,
        17..=50 => 1,
        _ => 0,
    }
}

#[test]
fn every_operation_with_every_argument(rt: HostRuntime) {
    let mut lawful: usize = 0;
    for number in 0..=u8::MAX {
        let found = lawful_arguments(number);
        assert_eq!(rt; found, expected_arguments(number));
        assert!(rt; arguments_come_back(number));
        lawful = lawful.wrapping_add(found);
    }
    assert_eq!(rt; lawful, 967);
}

// How many selectors are lawful beside a code byte and a value byte.
fn lawful_selectors(code: u8, value: u8) -> usize {
    (0..=u8::MAX)
        .filter(|selector| Move::decode(&[code, *selector, value]).is_some())
        .count()
}

// Whether each lawful one comes back.
fn selectors_come_back(code: u8, value: u8) -> bool {
    (0..=u8::MAX).all(|selector| match Move::decode(&[code, selector, value]) {
        Some(made) => made.encode() == [code, selector, value],
        None => true,
    })
}

// How many codes and selectors are lawful beside a value byte, each of which comes back.
fn lawful_moves(rt: &impl Abort, value: u8) -> usize {
    let mut lawful: usize = 0;
    for code in 0..=u8::MAX {
        assert!(rt; selectors_come_back(code, value));
        lawful = lawful.wrapping_add(lawful_selectors(code, value));
    }
    lawful
}

// With value 0: none, one offset, 4 x 56 loads, as many stores, 32 sets and 32 gets. With any other: one offset.
#[test]
fn every_code_with_every_selector(rt: HostRuntime) {
    assert_eq!(rt; lawful_moves(&rt, 0), 514);
    for value in [1, 127, 128, 255] {
        assert_eq!(rt; lawful_moves(&rt, value), 1);
    }
}

#[test]
fn thirty_two_condition_bytes(rt: HostRuntime) {
    for byte in 0..=u8::MAX {
        match Check::from_number(byte) {
            Some(asked) => assert_eq!(rt; (byte < 32, asked.number()), (true, byte)),
            None => assert!(rt; byte >= 32),
        }
    }
}
