use words::flagged::Flagged;
use words::flags::Flags;
use words::shifts::{asl, asr, lsl, lsr, rol, rolc, ror, rorc};

// A word, with the word and the carry that come of it; the overflow is clear.
type Row = (u32, u32, bool);

const HALVED: [Row; 6] = [
    (0, 0, false),
    (1, 0, true),
    (0xFFFF_FFFF, 0xFFFF_FFFF, true),
    (0x7FFF_FFFF, 0x3FFF_FFFF, true),
    (0x8000_0000, 0xC000_0000, false),
    (0xFFFF_FFFB, 0xFFFF_FFFD, true),
];

const RIGHT: [Row; 5] = [
    (0, 0, false),
    (1, 0, true),
    (0xFFFF_FFFF, 0x7FFF_FFFF, true),
    (0x8000_0000, 0x4000_0000, false),
    (0x8000_0001, 0x4000_0000, true),
];

// The same with a one that comes in at the top.
const RIGHT_MORE: [Row; 5] = [
    (0, 0x8000_0000, false),
    (1, 0x8000_0000, true),
    (0xFFFF_FFFF, 0xFFFF_FFFF, true),
    (0x8000_0000, 0xC000_0000, false),
    (0x8000_0001, 0xC000_0000, true),
];

const LEFT: [Row; 5] = [
    (0, 0, false),
    (0x4000_0000, 0x8000_0000, false),
    (0x7FFF_FFFF, 0xFFFF_FFFE, false),
    (0x8000_0000, 0, true),
    (0x8000_0001, 2, true),
];

// The same with a one that comes in at the bottom.
const LEFT_MORE: [Row; 5] = [
    (0, 1, false),
    (0x4000_0000, 0x8000_0001, false),
    (0x7FFF_FFFF, 0xFFFF_FFFF, false),
    (0x8000_0000, 1, true),
    (0xFFFF_FFFF, 0xFFFF_FFFF, true),
];

const ROTATED_RIGHT: [Row; 5] = [
    (0, 0, false),
    (1, 0x8000_0000, true),
    (2, 1, false),
    (0x8000_0001, 0xC000_0000, true),
    (0xFFFF_FFFE, 0x7FFF_FFFF, false),
];

const ROTATED_LEFT: [Row; 5] = [
    (0, 0, false),
    (1, 2, false),
    (0x8000_0000, 1, true),
    (0x8000_0001, 3, true),
    (0x7FFF_FFFF, 0xFFFF_FFFE, false),
];

fn clear(word: u32, carry: bool) -> Flagged {
    Flagged {
        word,
        flags: Flags {
            carry,
            overflow: false,
        },
    }
}

#[test]
fn to_the_right(rt: HostRuntime) {
    for (u, word, carry) in HALVED {
        assert_eq!(rt; asr(u), clear(word, carry));
    }
    for (u, word, carry) in RIGHT {
        assert_eq!(rt; lsr(u), clear(word, carry));
        assert_eq!(rt; rorc(u, false), clear(word, carry));
    }
    for (u, word, carry) in RIGHT_MORE {
        assert_eq!(rt; rorc(u, true), clear(word, carry));
    }
}

#[test]
fn to_the_left(rt: HostRuntime) {
    for (u, word, carry) in LEFT {
        assert_eq!(rt; lsl(u), clear(word, carry));
        assert_eq!(rt; rolc(u, false), clear(word, carry));
    }
    for (u, word, carry) in LEFT_MORE {
        assert_eq!(rt; rolc(u, true), clear(word, carry));
    }
}

#[test]
fn round(rt: HostRuntime) {
    for (u, word, carry) in ROTATED_RIGHT {
        assert_eq!(rt; ror(u), clear(word, carry));
    }
    for (u, word, carry) in ROTATED_LEFT {
        assert_eq!(rt; rol(u), clear(word, carry));
    }
}

// The one shift that can overflow: the sign changes where twice the number is no word.
#[test]
fn doubled(rt: HostRuntime) {
    let rows = [
        (1, 2, false, false),
        (0x3FFF_FFFF, 0x7FFF_FFFE, false, false),
        (0x4000_0000, 0x8000_0000, false, true),
        (0x7FFF_FFFF, 0xFFFF_FFFE, false, true),
        (0x8000_0000, 0, true, true),
        (0xBFFF_FFFF, 0x7FFF_FFFE, true, true),
        (0xC000_0000, 0x8000_0000, true, false),
        (0xFFFF_FFFF, 0xFFFF_FFFE, true, false),
    ];
    for (n, word, carry, overflow) in rows {
        assert_eq!(rt;
            asl(n),
            Flagged {
                word,
                flags: Flags { carry, overflow },
            }
        );
    }
}
