//! Each call from C with each of its statuses, but for out of memory.
use souper_calls::{
    SouperOutcome, souper_check, souper_find, souper_first_segment, souper_format, souper_hint,
    souper_key, souper_last_cut, souper_read, souper_same, souper_write,
};
use std::alloc::Global;
use std::fmt::Debug;
use std::process::Abort;

const ROOM: usize = 128;

fn equal<T: Copy + PartialEq + Debug>(rt: &impl Abort, found: T, want: T) {
    assert_eq!(rt; found, want);
}

// An outcome with a status and a length alone.
fn plain(status: u32, length: usize) -> SouperOutcome {
    SouperOutcome {
        status,
        input: 0,
        length,
        offset: 0,
        line: 0,
        column: 0,
    }
}

// The same of the second text.
fn second(outcome: SouperOutcome) -> SouperOutcome {
    SouperOutcome {
        input: 1,
        ..outcome
    }
}

#[test]
fn texts_are_written(rt: HostRuntime) {
    let mut out = [b'.'; ROOM];
    let done = souper_format(rt.alloc(), 0, b"%y = var %x=var infer %x", &mut out);
    equal(&rt, done, plain(0, 19));
    equal(&rt, out.get(..22), Some(b"%x = var\ninfer %x\n\n..."));
    let done = souper_format(rt.alloc(), 1, b"result 1", &mut out);
    equal(&rt, done, plain(0, 9));
    equal(&rt, out.get(..9), Some(b"result 1\n"));
    let done = souper_format(rt.alloc(), 2, b"%x = var cand %x 1", &mut out);
    equal(&rt, done, plain(0, 20));
    equal(&rt, out.get(..20), Some(b"%x = var\ncand %x 1\n\n"));
}

#[test]
fn code_is_written(rt: HostRuntime) {
    let mut out = [b'.'; ROOM];
    let done = souper_read(rt.alloc(), 0, b"%x:i8 = var infer %x", &mut out);
    equal(&rt, done, plain(0, 48));
    let statement = b"\x01\0\0\0\0\0\0\0\0\x02\0\0\0\0\0\0\0%x\x01\x08\0\0\0\0\0\0\0\0\0\0";
    equal(&rt, out.get(..31), Some(statement));
    equal(
        &rt,
        out.get(31..50),
        Some(b"\0\0\0\0\0\0\0\0\0\0\0\0\0\0\0\0\0.."),
    );
    let done = souper_read(rt.alloc(), 1, b"result -2:i8", &mut out);
    equal(&rt, done, plain(0, 29));
    let result =
        b"\0\0\0\0\0\0\0\0\x01\x01\xfe\xff\xff\xff\xff\xff\xff\xff\xff\xff\xff\xff\xff\xff\xff\xff\x01\x08\0";
    equal(&rt, out.get(..29), Some(result));
    let refused = souper_read(rt.alloc(), 2, b"result -2", &mut out);
    equal(&rt, (refused.status, refused.offset), (1, 0));
}

#[test]
fn hint_is_written(rt: HostRuntime) {
    let mut out = [b'.'; ROOM];
    let twice = b"%x = var\n%left = var\n%left = var\ninfer %left";
    let hinted = souper_hint(rt.alloc(), 0, 3, twice, &mut out);
    equal(&rt, hinted, plain(1, 28));
    equal(&rt, out.get(..30), Some(b"'%left' is defined on line 5.."));
}

#[test]
fn hint_of_a_short_buffer_has_its_length(rt: HostRuntime) {
    let mut out = [b'.'; 27];
    let twice = b"%x = var\n%left = var\n%left = var\ninfer %left";
    let short = souper_hint(rt.alloc(), 0, 0, twice, &mut out);
    equal(&rt, short, plain(5, 28));
}

#[test]
fn text_may_have_no_hint(rt: HostRuntime) {
    let mut out = [b'.'; ROOM];
    let without = souper_hint(rt.alloc(), 0, 0, b"infer %x", &mut out);
    equal(&rt, without, plain(1, 0));
    let spelled = souper_hint(rt.alloc(), 1, 0, b"result 1", &mut out);
    equal(&rt, spelled, plain(0, 0));
}

#[test]
fn hint_is_of_a_text_of_a_kind(rt: HostRuntime) {
    let mut out = [b'.'; ROOM];
    let unknown = souper_hint(rt.alloc(), 3, 0, b"", &mut out);
    equal(&rt, unknown, plain(2, 0));
    let not_utf8 = souper_hint(rt.alloc(), 0, 0, b"\xff", &mut out);
    equal(&rt, not_utf8, plain(4, 0));
}

// The code of the text, and from it the canonical text, a newline after it.
fn reads_back(rt: &impl Abort, alloc: Global, kind: u32, text: &[u8], want: &[u8]) {
    let mut room = [b'.'; 8 * ROOM];
    let read = souper_read(alloc, kind, text, &mut room);
    equal(rt, read.status, 0);
    let code = room.get(..read.length).expect(rt, "the code");
    let mut out = [b'.'; 2 * ROOM];
    let written = souper_write(alloc, kind, code, &mut out);
    equal(rt, written, plain(0, want.len()));
    equal(rt, out.get(..want.len()), Some(want));
    let empty: &mut [u8] = &mut [];
    let short = souper_write(alloc, kind, code, empty);
    equal(rt, short, plain(5, want.len()));
}

#[test]
fn items_are_written_from_their_code(rt: HostRuntime) {
    let alloc = rt.alloc();
    let text = b"%z = var\n%b = block 2\n%x:i8 = var (knownBits=01x) (range=[-3,4)) (signBits=2)\n\
        %p:i8 = phi %b, %x, -1:i8\nblockpc %b 1 %x 7\npc %p 1\ninfer %p (demandedBits=10)";
    let want = b"%b = block 2\n%x:i8 = var (knownBits=01x) (range=[-3,4)) (signBits=2)\n\
        %p:i8 = phi %b, %x, -1:i8\nblockpc %b 1 %x 7\npc %p 1\ninfer %p (demandedBits=10)\n\n";
    reads_back(&rt, alloc, 0, text, want);
    reads_back(&rt, alloc, 1, b"result 5:i8", b"result 5:i8\n");
    let text = b"%x = var %y = sub %x, 1 cand %y %x";
    let want = b"%x = var\n%y = sub %x, 1\ncand %y %x\n\n";
    reads_back(&rt, alloc, 2, text, want);
}

// An outcome about the item with an index, whose code is at an offset.
fn at(status: u32, index: usize, offset: usize) -> SouperOutcome {
    SouperOutcome {
        offset,
        ..plain(status, index)
    }
}

#[test]
fn other_bytes_are_no_code(rt: HostRuntime) {
    let alloc = rt.alloc();
    let mut out = [b'.'; ROOM];
    equal(&rt, souper_write(alloc, 3, b"", &mut out), plain(2, 0));
    equal(&rt, souper_write(alloc, 1, b"", &mut out), plain(0, 0));
    let result = b"\0\0\0\0\0\0\0\0\x01\0\x05\0\0\0\0\0\0\0";
    equal(&rt, souper_write(alloc, 1, result, &mut out), at(8, 0, 0));
    equal(&rt, souper_write(alloc, 0, result, &mut out), at(7, 0, 0));
    equal(
        &rt,
        souper_write(alloc, 1, &result[..17], &mut out),
        at(7, 0, 0),
    );
    let huge = b"\xff\xff\xff\xff\xff\xff\xff\xff\0";
    equal(&rt, souper_write(alloc, 1, huge, &mut out), at(7, 0, 0));
    let mut code = [0; ROOM];
    let read = souper_read(alloc, 1, b"result 1 result 2", &mut code);
    equal(&rt, read, plain(0, 54));
    let longer = code.get(..55).expect(&rt, "the code and a byte");
    equal(&rt, souper_write(alloc, 1, longer, &mut out), at(7, 2, 54));
    equal(&rt, out, [b'.'; ROOM]);
}

#[test]
fn records_have_their_flags(rt: HostRuntime) {
    let alloc = rt.alloc();
    let mut out = [b'.'; ROOM];
    let done = souper_key(alloc, 1, 4, b"result 1 result 2", &mut out);
    equal(&rt, done, plain(0, 18));
    equal(&rt, out.get(..19), Some(b"result 1\0result 2\0."));
    let done = souper_key(alloc, 0, 3, b"%x=var infer %x", &mut out);
    equal(&rt, done, plain(0, 86));
    // The key is what `printf '%%0 = var\ninfer %%0\n' | sha256sum` prints.
    let want =
        b"; d32f2ebccf6585b8a12455a400baff7b04e2eaa4b0ecef3bf2107f7f84065684\n%0 = var\ninfer %0\n\n";
    equal(&rt, out.get(..86), Some(want));
    equal(&rt, souper_key(alloc, 3, 8, b"", &mut out), plain(9, 0));
    equal(&rt, souper_key(alloc, 3, 7, b"", &mut out), plain(2, 0));
    equal(&rt, souper_key(alloc, 1, 0, b"\xff", &mut out), plain(4, 0));
    let refused = souper_key(alloc, 1, 0, b"infer", &mut out);
    equal(&rt, (refused.status, refused.offset), (1, 0));
}

// The words of the instructions, by their numbers.
const WORDS: &str =
    "add addnsw addnuw addnw sub subnsw subnuw subnw mul mulnsw mulnuw mulnw udiv sdiv udivexact \
    sdivexact urem srem and or xor shl shlnsw shlnuw shlnw lshr lshrexact ashr ashrexact select zext \
    sext trunc eq ne ult slt ule sle ctpop bswap bitreverse cttz ctlz fshl fshr sadd.with.overflow \
    uadd.with.overflow ssub.with.overflow usub.with.overflow smul.with.overflow umul.with.overflow \
    sadd.sat uadd.sat ssub.sat usub.sat extractvalue hole freeze";

// The number of the instruction in the code of a left-hand side, which has up to three operands.
fn number_of_word(rt: &impl Abort, alloc: Global, word: &str) -> Option<u8> {
    let mut out = [b'.'; 2 * ROOM];
    for operands in ["", "1", "1, 1", "1, 1, 1"] {
        let text = format!(in alloc; "%x = {word} {operands}\ninfer %x").expect(rt, word);
        let outcome = souper_read(alloc, 0, text.as_bytes(), &mut out);
        if outcome.status == 0 {
            return out.get(21).copied();
        }
    }
    None
}

#[test]
fn instructions_have_numbers(rt: HostRuntime) {
    for (number, word) in WORDS.split(' ').enumerate() {
        let found = number_of_word(&rt, rt.alloc(), word);
        equal(&rt, found.map(usize::from), Some(number));
    }
    equal(&rt, WORDS.split(' ').count(), 59);
}

const SHOWN: &str =
    "unknown:2:6: no value named '%y' in scope\n     |\n   2 | infer %y\n     |      ^";

#[test]
fn refusals_are_written_with_their_place(rt: HostRuntime) {
    let mut out = [b'.'; ROOM];
    let refused = souper_format(rt.alloc(), 0, b"%x = var\ninfer %y", &mut out);
    let place = SouperOutcome {
        status: 1,
        input: 0,
        length: SHOWN.len(),
        offset: 15,
        line: 2,
        column: 6,
    };
    equal(&rt, refused, place);
    equal(&rt, out.get(..SHOWN.len()), Some(SHOWN.as_bytes()));
    equal(&rt, out.get(SHOWN.len()), Some(&b'.'));
    let refused = souper_check(rt.alloc(), 0, b"%x = var\ninfer %y");
    equal(&rt, refused, place);
    let refused = souper_same(rt.alloc(), 0, b"", b"%x = var\ninfer %y");
    equal(&rt, refused, second(place));
}

#[test]
fn short_buffers_keep_their_bytes(rt: HostRuntime) {
    let mut out = [b'.'; 18];
    let short = souper_format(rt.alloc(), 0, b"%x=var infer %x", &mut out);
    equal(&rt, (short, out), (plain(5, 19), [b'.'; 18]));
    let short = souper_read(rt.alloc(), 0, b"%x=var infer %x", &mut out);
    equal(&rt, (short, out), (plain(5, 46), [b'.'; 18]));
    let empty: &mut [u8] = &mut [];
    equal(
        &rt,
        souper_format(rt.alloc(), 0, b"; none", empty),
        plain(0, 0),
    );
}

#[test]
fn kinds_and_bytes_are_tested(rt: HostRuntime) {
    let alloc = rt.alloc();
    let mut out = [b'.'; ROOM];
    equal(&rt, souper_format(alloc, 3, b"\xff", &mut out), plain(2, 0));
    equal(&rt, souper_format(alloc, 0, b"\xff", &mut out), plain(4, 0));
    equal(&rt, out, [b'.'; ROOM]);
    equal(&rt, souper_read(alloc, 3, b"\xff", &mut out), plain(2, 0));
    equal(&rt, souper_read(alloc, 0, b"\xff", &mut out), plain(4, 0));
    equal(&rt, souper_check(alloc, 3, b""), plain(2, 0));
    equal(&rt, souper_check(alloc, 1, b"\xff"), plain(4, 0));
    equal(&rt, souper_same(alloc, 3, b"", b""), plain(2, 0));
    equal(
        &rt,
        souper_same(alloc, 2, b"", b"\xff"),
        second(plain(4, 0)),
    );
}

// Whether two texts spell lists of the same graphs.
fn compares(rt: &impl Abort, alloc: Global, a: &[u8], b: &[u8], status: u32) {
    equal(rt, souper_same(alloc, 0, a, b), plain(status, 0));
}

#[test]
fn questions_are_answered(rt: HostRuntime) {
    let alloc = rt.alloc();
    let canonical = souper_check(alloc, 0, b"%x = var\ninfer %x\n\n");
    equal(&rt, canonical, plain(0, 19));
    let other = souper_check(alloc, 0, b"%x = var\ninfer %x\n");
    equal(&rt, other, plain(6, 19));
    compares(&rt, alloc, b"%x=var infer %x", b"%y=var %x=var infer %x", 0);
    compares(&rt, alloc, b"%x=var infer %x", b"%y=var infer %y", 6);
    compares(&rt, alloc, b"%x=var infer %x", b"", 6);
}

// Two replacements with one left-hand side, the first of them twice, and one of a constant.
const STORE: &[u8] = b"%x:i32 = var %y = mul %x, 2 infer %y %z = shl %x, 1 result %z \
    %a:i32 = var %b = mul %a, 2 cand %b 0 \
    %c:i32 = var %d = mul %c, 2 %e = shl %c, 1 cand %d %e cand 3 4";

#[test]
fn left_hand_sides_have_their_answers(rt: HostRuntime) {
    let alloc = rt.alloc();
    let mut out = [b'.'; 2 * ROOM];
    let queries = b"%n:i32 = var %t = mul %n, 2 infer %t %n:i32 = var infer %n";
    let want = b"%n:i32 = var\n%t = mul %n, 2\ninfer %t\n%2 = shl %n, 1\nresult %2\n\n\
        %n:i32 = var\n%t = mul %n, 2\ninfer %t\nresult 0\n\n\0\0.";
    let length = want.len() - 1;
    let done = souper_find(alloc, STORE, queries, &mut out);
    equal(&rt, done, plain(0, length));
    equal(&rt, out.get(..length + 1), Some(want));
    let empty: &mut [u8] = &mut [];
    let short = souper_find(alloc, STORE, queries, empty);
    equal(&rt, short, plain(5, length));
    equal(&rt, souper_find(alloc, b"", b"", &mut out), plain(0, 0));
    equal(&rt, out.get(..length + 1), Some(want));
}

#[test]
fn stores_and_queries_are_refused(rt: HostRuntime) {
    let alloc = rt.alloc();
    let mut out = [b'.'; ROOM];
    let bad = b"%x = var\ninfer %y";
    let place = SouperOutcome {
        status: 1,
        input: 0,
        length: SHOWN.len(),
        offset: 15,
        line: 2,
        column: 6,
    };
    let refused = souper_find(alloc, b"result 1", b"\xff", &mut out);
    equal(&rt, (refused.status, refused.input), (1, 0));
    equal(&rt, souper_find(alloc, b"", bad, &mut out), second(place));
    equal(&rt, out.get(..SHOWN.len()), Some(SHOWN.as_bytes()));
    equal(&rt, souper_find(alloc, b"\xff", bad, &mut out), plain(4, 0));
    let no_text = souper_find(alloc, STORE, b"\xff", &mut out);
    equal(&rt, no_text, second(plain(4, 0)));
}

#[test]
fn cut_points_are_found(rt: HostRuntime) {
    let text = b"%x = var\ninfer %x\n%y = var\ninfer %y\n%z = var\n%";
    equal(&rt, souper_last_cut(0, text), plain(0, 36));
    equal(&rt, souper_last_cut(0, &text[..45]), plain(0, 36));
    equal(&rt, souper_last_cut(0, &text[..44]), plain(0, 18));
    equal(&rt, souper_last_cut(1, text), plain(0, 0));
    equal(&rt, souper_first_segment(0, text), plain(0, 18));
    equal(&rt, souper_first_segment(0, &text[18..]), plain(0, 18));
    equal(&rt, souper_first_segment(0, &text[36..]), plain(0, 10));
    equal(&rt, souper_first_segment(1, text), plain(0, 46));
    equal(&rt, souper_first_segment(0, b""), plain(0, 0));
    // Invalid items are cut as well.
    let text = b"result\nresult 1\nresult 2";
    equal(&rt, souper_last_cut(1, text), plain(0, 7));
    equal(&rt, souper_first_segment(1, text), plain(0, 7));
    equal(&rt, souper_first_segment(1, &text[7..]), plain(0, 9));
}

#[test]
fn kinds_and_bytes_of_cuts_are_tested(rt: HostRuntime) {
    equal(&rt, souper_last_cut(3, b"\xff\n"), plain(2, 0));
    equal(&rt, souper_last_cut(1, b"result 1\n\xff\n"), plain(4, 0));
    equal(&rt, souper_last_cut(1, b"result 1\n\xff"), plain(0, 0));
    equal(&rt, souper_first_segment(3, b"\xff"), plain(2, 0));
    equal(&rt, souper_first_segment(1, b"result 1\n\xff"), plain(4, 0));
    let bad = b"result 1\nresult 2\n\xff";
    equal(&rt, souper_first_segment(1, bad), plain(0, 9));
}
