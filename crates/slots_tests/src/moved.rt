use crate::rows::makes;
use operations::operands::Source;
use operations::operation::Operation;
use operations::places::{Near, Place, StackNumber};

#[test]
fn picks(rt: HostRuntime) {
    makes(&rt, Operation::Pick(Source::Own(Place::S0)), &[1], &[1, 1]);
    makes(
        &rt,
        Operation::Pick(Source::Own(Place::S1)),
        &[1, 2],
        &[1, 2, 1],
    );
    makes(
        &rt,
        Operation::Pick(Source::Own(Place::S7)),
        &[8, 7, 6, 5, 4, 3, 2, 1],
        &[8, 7, 6, 5, 4, 3, 2, 1, 8],
    );
    makes(&rt, Operation::Pick(Source::Moved(Near::S0)), &[1], &[1]);
    makes(
        &rt,
        Operation::Pick(Source::Moved(Near::S1)),
        &[1, 2],
        &[2, 1],
    );
    makes(
        &rt,
        Operation::Pick(Source::Moved(Near::S2)),
        &[9, 1, 2, 3],
        &[9, 2, 3, 1],
    );
    makes(
        &rt,
        Operation::Pick(Source::Moved(Near::S3)),
        &[9, 1, 2, 3, 4],
        &[9, 2, 3, 4, 1],
    );
    makes(
        &rt,
        Operation::Pick(Source::Other(StackNumber::Two, Near::S2)),
        &[],
        &[21],
    );
    makes(
        &rt,
        Operation::Pick(Source::Other(StackNumber::One, Near::S0)),
        &[3],
        &[3, 14],
    );
    makes(
        &rt,
        Operation::Pick(Source::Other(StackNumber::Zero, Near::S1)),
        &[3, 4],
        &[3, 4, 3],
    );
}

#[test]
fn pins(rt: HostRuntime) {
    makes(&rt, Operation::Pin(Place::S0), &[1], &[]);
    makes(&rt, Operation::Pin(Place::S1), &[1, 2], &[2]);
    makes(&rt, Operation::Pin(Place::S2), &[1, 2, 3], &[3, 2]);
    makes(
        &rt,
        Operation::Pin(Place::S3),
        &[9, 1, 2, 3, 4],
        &[9, 4, 2, 3],
    );
    makes(
        &rt,
        Operation::Pin(Place::S7),
        &[1, 2, 3, 4, 5, 6, 7, 8],
        &[8, 2, 3, 4, 5, 6, 7],
    );
}
