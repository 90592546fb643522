//! What a watched stream records of its calls.
use crate::checks::equal;
use crate::faulty::{FaultyReader, FaultyWriter};
use souper_format::watched::Watched;
use std::io::{Read, Write};

// What a read gives, and whether the stream then has failed and has ended.
fn read<R: Read>(input: &mut Watched<R>, buffer: &mut [u8]) -> (Option<usize>, bool, bool) {
    let count = input.read(buffer).ok();
    (count, input.failed(), input.ended())
}

// The same of a write.
fn write<W: Write>(out: &mut Watched<W>, bytes: &[u8]) -> (Option<usize>, bool, bool) {
    let count = out.write(bytes).ok();
    (count, out.failed(), out.ended())
}

// Whether a flush works, and whether the stream then has failed.
fn flush<W: Write>(out: &mut Watched<W>) -> (bool, bool) {
    let works = out.flush().is_ok();
    (works, out.failed())
}

#[test]
fn end_of_a_reader_is_reported(rt: HostRuntime) {
    let mut input = Watched::new(b"abc".as_slice());
    equal(&rt, (input.failed(), input.ended()), (false, false));
    equal(&rt, read(&mut input, &mut []), (Some(0), false, false));
    let mut buffer = [0u8; 2];
    equal(&rt, read(&mut input, &mut buffer), (Some(2), false, false));
    equal(&rt, buffer, *b"ab");
    equal(&rt, read(&mut input, &mut buffer), (Some(1), false, false));
    equal(&rt, read(&mut input, &mut buffer), (Some(0), false, true));
}

#[test]
fn failed_read_is_reported(rt: HostRuntime) {
    let mut input = Watched::new(FaultyReader::new(b"a", 1, 1));
    let mut buffer = [0u8; 2];
    equal(&rt, read(&mut input, &mut buffer), (Some(1), false, false));
    equal(&rt, read(&mut input, &mut buffer), (None, true, false));
    equal(&rt, read(&mut input, &mut buffer), (Some(0), true, true));
}

#[test]
fn failed_write_is_reported(rt: HostRuntime) {
    let mut out = Watched::new(FaultyWriter::new(1, 2));
    equal(&rt, (out.failed(), out.ended()), (false, false));
    equal(&rt, write(&mut out, b"ab"), (Some(1), false, false));
    equal(&rt, flush(&mut out), (true, false));
    equal(&rt, flush(&mut out), (false, true));
    let works = out.write_all(b"ab").is_ok();
    equal(&rt, (works, out.failed(), out.ended()), (true, true, false));
}

#[test]
fn write_that_takes_nothing_is_reported(rt: HostRuntime) {
    let mut out = Watched::new(FaultyWriter::new(0, 9));
    equal(&rt, write(&mut out, b""), (Some(0), false, false));
    equal(&rt, write(&mut out, b"a"), (None, true, false));
}
