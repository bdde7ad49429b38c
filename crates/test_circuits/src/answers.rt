// The answers of a chip to words, block by block.
ghost use Rattle.std.specs.Prelude.{◌≡◌, ◌*◌, ◌^◌, ◌<◌, length, IfOk};

use aq_base::{MemSink, Memory};
use circuit_extracted::{Extracted, two_buffers};
use std::alloc::Global;
use std::test::Fail;
use text_answers::{print_answers, read_words};

/// A text of so many words of one digit.
fn words_text(alloc: Global, count: u8) -> Result<Vec<u8>, Memory>
    ensures { IfOk result (λ text. length text.items ≡ 2 * count) }
{
    let mut text = Vec::new(alloc);
    for number in 0..count {
        text.push(if number % 3 == 1 { b'1' } else { b'0' })?;
        text.push(b'\n')?;
    }
    Ok(text)
}

/// Whether the text of the circuit's answers is this line and the text of the words.
fn repeats(alloc: Global, circuit: &Extracted, line: &[u8], text: &[u8]) -> Result<bool, Memory>
    requires { length text.now < 2 ^ 32 }
{
    let mut out = MemSink::new(alloc);
    let Ok(words) = read_words(text, circuit.inputs) else {
        return Ok(false);
    };
    if print_answers(alloc, circuit, &words, &mut out).is_err() {
        return Err(Memory);
    }
    let shown = out.bytes();
    Ok(shown.starts_with(line) && shown.split_at(line.len()).1 == text)
}

/// The first chip, a buffer in each of two rows, shows each word as it is.
#[test]
fn first_chip_answers(rt: HostRuntime) -> Result<(), Fail> {
    let circuit = two_buffers(rt.alloc())?;
    let line = b"rows 2 cells 2 wires 1 delay 1\n";
    for count in [0, 1, 63, 64, 65, 150] {
        let text = words_text(rt.alloc(), count)?;
        assert!(rt; repeats(rt.alloc(), &circuit, line, text.as_slice())?);
    }
    Ok(())
}
