// That words are read: no clause can say that there is memory for their bytes.
use super::*;
use std::test::Fail;

#[test]
fn words_are_read(rt: HostRuntime) -> Result<(), Fail> {
    let heap = rt.alloc();
    assert_eq!(rt; bytes(heap, "-")?.as_slice(), [].as_slice());
    assert_eq!(rt; bytes(heap, "")?.as_slice(), [].as_slice());
    assert_eq!(rt; bytes(heap, "00FF7A")?.as_slice(), [0, 255, 122].as_slice());
    assert_eq!(rt; bytes(heap, "123")?.as_slice(), [18].as_slice());
    assert_eq!(rt; bytes(heap, "7")?.as_slice(), [].as_slice());
    for word in ["G0", "12G", "0a", "--"] {
        assert!(rt; bytes(heap, word).is_err());
    }
    Ok(())
}
