use short_bytes::ShortBytes;
use std::test::Fail;

#[test]
fn keeps_bytes_in_place_and_elsewhere(rt: HostRuntime) -> Result<(), Fail> {
    let alloc = rt.alloc();
    let texts: [&[u8]; 5] = [
        b"",
        b"a",
        b"fourteen bytes",
        b"fifteen bytes..",
        b"a name of more than fifteen bytes",
    ];
    for text in texts {
        let list = ShortBytes::copy(alloc, text)?;
        assert_eq!(rt; list.len(), text.len());
        assert_eq!(rt; list.as_slice(), text);
        let copy = list.clone()?;
        assert!(rt; copy == list);
        assert!(rt; ShortBytes::from_vec(alloc, text.to_vec(alloc)?)? == list);
        let longer = ShortBytes::copy(alloc, b"a name of more than fifteen byte_")?;
        assert!(rt; longer != list);
    }
    assert_eq!(rt; ShortBytes::new().len(), 0);
    Ok(())
}
