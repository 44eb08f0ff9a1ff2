use words::bits::{and, ff1, or, popc, xor};

#[test]
fn combined(rt: HostRuntime) {
    assert_eq!(rt; or(0xF0F0_F0F0, 0xFF00_FF00), 0xFFF0_FFF0);
    assert_eq!(rt; and(0xF0F0_F0F0, 0xFF00_FF00), 0xF000_F000);
    assert_eq!(rt; xor(0xF0F0_F0F0, 0xFF00_FF00), 0x0FF0_0FF0);
    assert_eq!(rt; xor(0x8000_0001, 0xFFFF_FFFF), 0x7FFF_FFFE);
}

// A word, with the zeros above its first one and the number of its ones.
#[test]
fn counted(rt: HostRuntime) {
    let rows = [
        (0, 32, 0),
        (1, 31, 1),
        (0xFFFF_FFFF, 0, 32),
        (0x7FFF_FFFF, 1, 31),
        (0x8000_0000, 0, 1),
        (0x0001_0100, 15, 2),
        (0x5555_5555, 1, 16),
    ];
    for (u, zeros, ones) in rows {
        assert_eq!(rt; ff1(u), zeros);
        assert_eq!(rt; popc(u), ones);
    }
}
