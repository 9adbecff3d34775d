use crate::gen_script;
use std::test::Fail;

// as another program generates them, which was written from the format's description alone
#[test]
fn a_number_gives_a_script_and_an_input(rt: HostRuntime) -> Result<(), Fail> {
    let (script, input) = gen_script(rt.alloc(), 1, 8)?;
    assert_eq!(rt;
        script.as_slice(),
        b"guest 0 shared\nguest 1 shared\ncall 0 get-stdin\ncall 1 get-stdin\ncall 1 async-stdin\ncapture\ncall 0 skip 0 31\ncall 0 read 0 36\ncall 1 read 0 13\ndeliver\ncall 1 poll-read 1 11\ncapture\ndeliver\n".as_slice()
    );
    assert_eq!(rt; input.len(), 64);
    assert_eq!(rt; &input[..4], [1u8, 2, 3, 4].as_slice());
    assert_eq!(rt; input[63], 64);
    let (_, input) = gen_script(rt.alloc(), 255, 1)?;
    assert_eq!(rt; input.as_slice(), [255u8, 0, 1, 2, 3, 4, 5, 6].as_slice());
    Ok(())
}
