// The greatest sample beside a build and a check of the same adder.
use sample_adder::adder_text;
use std::alloc::{AllocError, Global};
use std::test::Fail;
use test_runs::{LIBRARY_A, ran, store};

// Eight words for so many inputs: value i of word k is true where (k + 1)(i + 3) modulo 11 is below 5.
fn eight_words(alloc: Global, inputs: u32) -> Result<String, AllocError> {
    let mut words = String::new(alloc);
    for k in 0..8 {
        for i in 0..inputs.min(1_000) {
            words.push(if (k + 1) * (i + 3) % 11 < 5 { '1' } else { '0' })?;
        }
        words.push('\n')?;
    }
    Ok(words)
}

#[test]
fn the_sample_of_64_bits_is_its_chip(rt: HostRuntime) -> Result<(), Fail> {
    let alloc = rt.alloc();
    let net = adder_text(alloc, 64)?;
    let words = eight_words(alloc, 128)?;
    let mut files = store(alloc, net.as_slice(), LIBRARY_A.as_bytes())?;
    files.add("words", words.as_bytes())?;
    let built = ran(alloc, files, "build net lib out")?;
    let told = ran(alloc, built.files, "verify out lib words")?;
    let sample = ran(alloc, told.files, "sample 64")?;
    let lines = std::str::from_utf8(told.out.bytes())?;
    let text = format!(in alloc; "bits 64 {lines}")?;
    assert_eq!(rt; sample.out.bytes(), text.as_bytes());
    // the counts, and eight answers of 65 bits
    assert_eq!(rt; text.len(), 51 + 8 * 66);
    Ok(())
}
