use words::flagged::Flagged;
use words::flags::Flags;
use words::sums::{add, addc, sub, subc, subcr, subr};

// n1 and n2, with the word, the carry and the overflow that come of them.
type Row = (u32, u32, u32, bool, bool);

const ADDED: [Row; 9] = [
    (2, 3, 5, false, false),
    (0, 0, 0, false, false),
    (0xFFFF_FFFF, 1, 0, true, false),
    (0x7FFF_FFFF, 1, 0x8000_0000, false, true),
    (0x8000_0000, 0x8000_0000, 0, true, true),
    (0x8000_0000, 0xFFFF_FFFF, 0x7FFF_FFFF, true, true),
    (0xFFFF_FFFF, 0xFFFF_FFFF, 0xFFFF_FFFE, true, false),
    (0x7FFF_FFFF, 0x7FFF_FFFF, 0xFFFF_FFFE, false, true),
    (0x7FFF_FFFF, 0x8000_0000, 0xFFFF_FFFF, false, false),
];

const SUBTRACTED: [Row; 9] = [
    (7, 5, 2, true, false),
    (5, 7, 0xFFFF_FFFE, false, false),
    (0, 0, 0, true, false),
    (0xFFFF_FFFF, 0xFFFF_FFFF, 0, true, false),
    (0x7FFF_FFFF, 0xFFFF_FFFF, 0x8000_0000, false, true),
    (0, 0x8000_0000, 0x8000_0000, false, true),
    (0x8000_0000, 1, 0x7FFF_FFFF, true, true),
    (0x8000_0000, 0x7FFF_FFFF, 1, true, true),
    (0xFFFF_FFFF, 0x7FFF_FFFF, 0x8000_0000, true, false),
];

// The same with a carry that comes in.
const ADDED_MORE: [Row; 6] = [
    (2, 3, 6, false, false),
    (0xFFFF_FFFF, 0, 0, true, false),
    (0x7FFF_FFFF, 0, 0x8000_0000, false, true),
    (0x8000_0000, 0xFFFF_FFFF, 0x8000_0000, true, false),
    (0xFFFF_FFFF, 0xFFFF_FFFF, 0xFFFF_FFFF, true, false),
    (0x7FFF_FFFF, 0x8000_0000, 0, true, false),
];

const SUBTRACTED_MORE: [Row; 7] = [
    (5, 7, 0xFFFF_FFFF, false, false),
    (0, 1, 0, true, false),
    (0xFFFF_FFFF, 0, 0, true, false),
    (0x7FFF_FFFF, 0, 0x8000_0000, true, true),
    (0x7FFF_FFFF, 0xFFFF_FFFF, 0x8000_0001, false, true),
    (0x8000_0000, 1, 0x8000_0000, true, false),
    (0, 0x8000_0000, 0x8000_0001, false, true),
];

#[test]
fn added(rt: HostRuntime) {
    for (n1, n2, word, carry, overflow) in ADDED {
        let expected = Flagged {
            word,
            flags: Flags { carry, overflow },
        };
        assert_eq!(rt; add(n1, n2), expected);
        assert_eq!(rt; add(n2, n1), expected);
        assert_eq!(rt; addc(n1, n2, false), expected);
    }
}

#[test]
fn subtracted(rt: HostRuntime) {
    for (n1, n2, word, carry, overflow) in SUBTRACTED {
        let expected = Flagged {
            word,
            flags: Flags { carry, overflow },
        };
        assert_eq!(rt; sub(n1, n2), expected);
        assert_eq!(rt; subr(n2, n1), expected);
        assert_eq!(rt; subc(n1, n2, false), expected);
        assert_eq!(rt; subcr(n2, n1, false), expected);
    }
}

#[test]
fn with_a_carry(rt: HostRuntime) {
    for (n1, n2, word, carry, overflow) in ADDED_MORE {
        assert_eq!(rt;
            addc(n1, n2, true),
            Flagged {
                word,
                flags: Flags { carry, overflow },
            }
        );
    }
    for (n1, n2, word, carry, overflow) in SUBTRACTED_MORE {
        let expected = Flagged {
            word,
            flags: Flags { carry, overflow },
        };
        assert_eq!(rt; subc(n1, n2, true), expected);
        assert_eq!(rt; subcr(n2, n1, true), expected);
    }
}
