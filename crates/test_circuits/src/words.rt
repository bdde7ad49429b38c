// Words texts, line by line.
use std::test::Fail;
use text_answers::read_words;

#[test]
fn words_texts(rt: HostRuntime) -> Result<(), Fail> {
    // A text, the width of its words, and how many words it has or which line is none.
    let rows: [(&[u8], u32, Result<u64, u64>); 14] = [
        (b"", 2, Ok(0)),
        (b"01\n10\n", 2, Ok(2)),
        (b"01\n10", 2, Ok(2)),
        (b"01\r\n10\r\n", 2, Ok(2)),
        (b"01\n0x\n", 2, Err(2)),
        (b"01\n0\n11\n", 2, Err(2)),
        (b"011\n", 2, Err(1)),
        (b"01\n\n", 2, Err(2)),
        (b"01\r\r\n", 2, Err(1)),
        (b"01\r", 2, Err(1)),
        (b"\n\n\n", 0, Ok(3)),
        (b"\n\r\n", 0, Ok(2)),
        (b"\n ", 0, Err(2)),
        (b"0 \n", 2, Err(1)),
    ];
    for (text, width, expected) in rows {
        let answer = match read_words(text, width) {
            Ok(words) => Ok(words.count()),
            Err(bad) => Err(bad.line),
        };
        assert_eq!(rt; answer, expected);
    }
    Ok(())
}
