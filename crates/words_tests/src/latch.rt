use words::fetches::{Accumulated, fetch, fetch_added, fetch_negated, fetch_subtracted};
use words::pair::Pair;
use words::products::{mul, pass, umul};

const ONES: u64 = 0xFFFF_FFFF_FFFF_FFFF;

// Two words, their signed product and their unsigned product.
#[test]
fn multiplied(rt: HostRuntime) {
    let rows = [
        (0, 0xFFFF_FFFF, 0, 0),
        (0xFFFF_FFFE, 3, 0xFFFF_FFFF_FFFF_FFFA, 0x2_FFFF_FFFA),
        (0xFFFF_FFFF, 0xFFFF_FFFF, 1, 0xFFFF_FFFE_0000_0001),
        (
            0x8000_0000,
            0x8000_0000,
            0x4000_0000_0000_0000,
            0x4000_0000_0000_0000,
        ),
        (
            0x7FFF_FFFF,
            0x8000_0000,
            0xC000_0000_8000_0000,
            0x3FFF_FFFF_8000_0000,
        ),
    ];
    for (a, b, signed, unsigned) in rows {
        assert_eq!(rt; mul(a, b), signed);
        assert_eq!(rt; umul(a, b), unsigned);
    }
}

#[test]
fn in_two_words(rt: HostRuntime) {
    assert_eq!(rt; pass(1, 2), 0x2_0000_0001);
    assert_eq!(rt;
        u64::from(Pair {
            low: 0xFFFF_FFFA,
            high: 0xFFFF_FFFF,
        }),
        0xFFFF_FFFF_FFFF_FFFA
    );
    assert_eq!(rt; Pair::from(0x2_0000_0001), Pair { low: 1, high: 2 });
}

#[test]
fn fetched(rt: HostRuntime) {
    for (latch, negated) in [
        (0, 0),
        (1, ONES),
        (6, 0xFFFF_FFFF_FFFF_FFFA),
        (0x8000_0000_0000_0000, 0x8000_0000_0000_0000),
    ] {
        assert_eq!(rt; fetch(latch), latch);
        assert_eq!(rt; fetch_negated(latch), negated);
    }
}

// A number with its carry count; the carry before an accumulating fetch does not matter.
fn counted(value: u64, count: u32) -> Accumulated {
    Accumulated {
        value,
        carry: false,
        count,
    }
}

// The latch, the number, the count; then the number, the carry and the count.
#[test]
fn accumulated(rt: HostRuntime) {
    let added = [
        (2, 3, 7, 5, false, 7),
        (1, ONES, 0, 0, true, 1),
        (ONES, ONES, 7, ONES - 1, true, 8),
        (1, ONES, 0xFFFF_FFFF, 0, true, 0),
    ];
    for (latch, d, before, value, carry, count) in added {
        assert_eq!(rt;
            fetch_added(latch, counted(d, before)),
            Accumulated {
                value,
                carry,
                count,
            }
        );
    }
    let subtracted = [
        (1, 5, 7, 4, true, 7),
        (3, 3, 0, 0, true, 0),
        (1, 0, 7, ONES, false, 6),
        (ONES, 0, 0, 1, false, 0xFFFF_FFFF),
    ];
    for (latch, d, before, value, carry, count) in subtracted {
        assert_eq!(rt;
            fetch_subtracted(latch, counted(d, before)),
            Accumulated {
                value,
                carry,
                count,
            }
        );
    }
}
