// A failure's refusal turned into another.
use blocks::refusals::BlockRefusal;
use images::refusals::{ImageError, ImageRefusal};
use program::refusals::{LoadError, LoadRefusal};
use questions::failures::Failure;
use questions::refusals::Refusal;

#[test]
fn a_refusal_is_turned(rt: HostRuntime) {
    let unsound = ImageRefusal::Block {
        place: 3,
        refusal: BlockRefusal::WrongCheck,
    };
    let failure = ImageError::Refused(unsound);
    let turned = failure.map(LoadRefusal::Image);
    assert_eq!(rt; turned, LoadError::Refused(LoadRefusal::Image(unsound)));
    assert_eq!(rt;
        failure.map(|refusal| refusal.number()),
        Failure::Refused(9)
    );
}

// A closure need be callable on the refusal that there is, and on no other.
#[test]
fn a_closure_that_may_not_always_be_called(rt: HostRuntime) {
    let words = [5u32, 6, 7];
    assert_eq!(rt;
        Failure::Refused(2usize).map(|place| words[place]),
        Failure::Refused(7)
    );
}

#[test]
fn want_of_memory_stays(rt: HostRuntime) {
    let turned = ImageError::OutOfMemory.map(LoadRefusal::Image);
    assert_eq!(rt; turned, LoadError::OutOfMemory);
}
