//! The types and functions at the root of the crate, as its callers use them.
use super::endings::words;
use super::*;

#[test]
fn names_at_the_root(rt: HostRuntime) {
    let asked: Vec<String> = words(rt.alloc(), &["bit"]).expect(&rt, "memory");
    let kind: Option<Kind> = kind_of(&asked);
    assert_is(&rt, kind, Some(Kind::Bit), "the kind");
    let mut reader: Reading<&[u8]> = Reading::new(b"xx1KiB\n".as_slice());
    let mut writer: Writing<Vec<u8>> = Writing::new(Vec::new(rt.alloc()));
    let read: Option<usize> = reader.read(&mut [0u8; 2]);
    let wrote: Option<usize> = writer.write(b"> ");
    assert_is(&rt, (read, wrote), (Some(2), Some(2)), "before the run");
    let ended: Result<(), RunError> = run(rt.alloc(), &mut reader, &mut writer, Kind::Bit);
    let failed: (bool, bool) = (reader.failed(), writer.failed());
    assert_is(&rt, (ended, failed), (Ok(()), (false, false)), "the run");
    let (rest, taken): (&[u8], Vec<u8>) = (reader.into_inner(), writer.into_inner());
    let found = (rest, taken.as_slice());
    assert_is(
        &rt,
        found,
        (b"".as_slice(), b"> 8192 = 8 Kib\n".as_slice()),
        "the streams",
    );
    let words: &'static str = fault_words(RunError::Read);
    assert_is(&rt, words, "read failed", "the words of an error");
}
