use words::condition::Condition;
use words::flags::Flags;
use words::pair::Pair;
use words::status::{Status, flag_word};
use words::sums::sub;

// The first eight conditions, each with its opposite.
const OPPOSITES: [(Condition, Condition); 8] = [
    (Condition::True, Condition::False),
    (Condition::Zero, Condition::NotZero),
    (Condition::Negative, Condition::NotNegative),
    (Condition::Overflow, Condition::NoOverflow),
    (Condition::Below, Condition::NotBelow),
    (Condition::Above, Condition::NotAbove),
    (Condition::Less, Condition::NotLess),
    (Condition::Greater, Condition::NotGreater),
];

// Two words, and which of the first eight conditions hold after the second is subtracted from the first.
const COMPARED: [(u32, u32, [bool; 8]); 6] = [
    (5, 7, [true, false, true, false, true, false, true, false]),
    (7, 5, [true, false, false, false, false, true, false, true]),
    (5, 5, [true, true, false, false, false, false, false, false]),
    (
        0x7FFF_FFFF,
        0xFFFF_FFFF,
        [true, false, true, true, true, false, false, true],
    ),
    (
        0x8000_0000,
        1,
        [true, false, false, true, false, true, true, false],
    ),
    (
        1,
        0xFFFF_FFFF,
        [true, false, false, false, true, false, false, true],
    ),
];

#[test]
fn compared(rt: HostRuntime) {
    for (a, b, expected) in COMPARED {
        let difference = sub(a, b);
        let status = Status::of_word(difference.word, difference.flags);
        for ((condition, opposite), answer) in OPPOSITES.iter().zip(expected.iter()) {
            assert_eq!(rt; condition.holds(status), *answer);
            assert_eq!(rt; opposite.holds(status), !*answer);
        }
    }
}

// A pair is 0 only if both its words are, and its sign is that of the high word.
#[test]
fn of_a_pair(rt: HostRuntime) {
    let rows = [
        (0, 0, true, false),
        (1, 0, false, false),
        (0, 1, false, false),
        (0x8000_0000, 0, false, false),
        (0, 0x8000_0000, false, true),
    ];
    for (low, high, zero, negative) in rows {
        let flags = Flags {
            carry: true,
            overflow: false,
        };
        let status = Status::of_pair(Pair { low, high }, flags);
        assert_eq!(rt;
            status,
            Status {
                zero,
                negative,
                flags,
            }
        );
    }
}

#[test]
fn as_words(rt: HostRuntime) {
    assert_eq!(rt; flag_word(true), 0xFFFF_FFFF);
    assert_eq!(rt; flag_word(false), 0);
}
