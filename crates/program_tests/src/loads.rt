// Code images accepted and refused.
use blocks::kinds::Kind;
use blocks::layout::BLOCK;
use blocks::refusals::BlockRefusal;
use codes::bytes::Coded;
use images::refusals::ImageRefusal;
use images::sealing::seal_all;
use program::program::Program;
use program::refusals::{LoadError, LoadRefusal};
use questions::refusals::Refusal;
use std::test::Fail;

// Bundle 1 is `push 5` in slot 0; the filling is bundles that do nothing.
#[test]
fn bundles_in_order(rt: HostRuntime) -> Result<(), Fail> {
    let heap = rt.alloc();
    let mut code = [0u8; 32];
    code[16] = 1;
    code[17] = 5;
    let image = seal_all(heap, Kind::Code, &code)?;
    let program = Program::load(heap, &image)?;
    assert_eq!(rt; program.end(), 248);
    let bundles = program.bundles();
    assert!(rt; bundles.len() == 31);
    let mut first = [0u8; 16];
    assert_eq!(rt; bundles[0].encode(), first);
    first[0] = 1;
    first[1] = 5;
    assert_eq!(rt; bundles[1].encode(), first);
    assert_eq!(rt; bundles[30].encode(), [0u8; 16]);
    Ok(())
}

// The lowest unlawful bundle is named; an unsound block, though later, is found first.
#[test]
fn blocks_are_asked_before_bundles(rt: HostRuntime) -> Result<(), Fail> {
    let heap = rt.alloc();
    let mut code = [0u8; 600];
    code[16 * 2] = 51;
    code[16 * 33] = 0;
    code[16 * 33 + 1] = 1;
    let mut image = seal_all(heap, Kind::Code, &code)?;
    let unlawful = LoadRefusal::Unlawful { bundle: 2 };
    assert_eq!(rt;
        Program::load(heap, &image).err(),
        Some(LoadError::Refused(unlawful))
    );
    assert_eq!(rt; unlawful.number(), 10);
    assert!(rt; image.len() == 2 * BLOCK);
    image[BLOCK + 500] ^= 1;
    let unsound = ImageRefusal::Block {
        place: 1,
        refusal: BlockRefusal::WrongCheck,
    };
    assert_eq!(rt;
        Program::load(heap, &image).err(),
        Some(LoadError::Refused(LoadRefusal::Image(unsound)))
    );
    assert_eq!(rt; LoadRefusal::Image(unsound).number(), 9);
    Ok(())
}

#[test]
fn greatest_program_and_no_program(rt: HostRuntime) -> Result<(), Fail> {
    let heap = rt.alloc();
    let code = vec![in heap; 0u8; 1015808]?;
    let mut image = seal_all(heap, Kind::Code, &code)?;
    assert_eq!(rt; Program::load(heap, &image)?.end(), 507904);
    image.extend_from_slice(&[0u8; BLOCK])?;
    assert_eq!(rt;
        Program::load(heap, &image).err(),
        Some(LoadError::Refused(LoadRefusal::Image(ImageRefusal::Length)))
    );
    assert_eq!(rt;
        Program::load(heap, &[]).err(),
        Some(LoadError::Refused(LoadRefusal::Image(ImageRefusal::Length)))
    );
    Ok(())
}
