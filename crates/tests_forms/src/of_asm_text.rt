// Of asm_text: characters of one to four bytes have these bytes.
use asm_text::encoded;
use std::test::Fail;

#[test]
fn characters_have_these_bytes(rt: HostRuntime) -> Result<(), Fail> {
    let bytes = encoded(rt.alloc(), &['a', 'é', '€', '𝄞'])?;
    assert!(rt; bytes.as_slice() == "aé€𝄞".as_bytes());
    Ok(())
}
