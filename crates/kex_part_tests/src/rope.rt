//! Ropes, and the text of the codes that they come to.
use kex_code::code::Code;
use kex_code::reader::CodeReader;
use kex_code::symbol::Symbol;
use kex_code::text::write_text;
use kex_rope::rope::Rope;
use std::test::Fail;

#[test]
fn ropes_are_joined_in_order(rt: HostRuntime) -> Result<(), Fail> {
    let alloc = rt.alloc();
    let mut first = Rope::new(alloc);
    let mut second = Rope::new(alloc);
    let mut code = Code::new(alloc);
    first.push(Symbol::L)?;
    second.push(Symbol::Byte(b'a'))?;
    code.push(Symbol::L)?;
    first.append(&mut second);
    first.copy_into(&mut code)?;
    first.drain_into(&mut code)?;
    let mut text = Vec::new(alloc);
    write_text(code.as_slice(), &mut text)?;
    assert_eq!(rt; text.as_slice(), b"00'610'61".as_slice());
    let mut read = Code::new(alloc);
    let fed = CodeReader::new().feed(text.as_slice(), &mut read);
    assert!(rt; fed.is_ok());
    assert_eq!(rt; read.as_slice(), code.as_slice());
    Ok(())
}
