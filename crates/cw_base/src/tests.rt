use super::*;
use std::test::Fail;

#[test]
fn lists_and_texts_are_made(rt: HostRuntime) -> Result<(), Fail> {
    let mut list = Seq::new(rt.alloc());
    list.push(7u32)?;
    list.push(8)?;
    assert_eq!(rt; list.as_slice(), [7, 8].as_slice());
    let text = Text::from_ascii(rt.alloc(), b"name")?;
    assert_eq!(rt; text.clone()?.as_str(), "name");
    Ok(())
}
