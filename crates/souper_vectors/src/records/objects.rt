//! JSON objects of items and of parse errors.
use crate::checks::equal;
use crate::faulty::FaultyWriter;
use crate::records::support::{Command, run_to, runs};
use souper_format::watched::Watched;
use souper_ir::ast::{LeftHandSide, RightHandSide};
use std::alloc::Global;
use std::io::BufReader;
use std::process::Abort;

const NAME: &str = r#"a "b"\c.opt"#;

const OBJECTS_OF_ITEMS: Command = Command::Objects {
    file: NAME,
    rename: false,
};

const OBJECTS_OF_RENAMED: Command = Command::Objects {
    file: NAME,
    rename: true,
};

const SOURCE: &str = "; a comment at the head

%0:i32 = var
infer %0
; another, with infer %0
%1:i32 = foo %0
infer %1


%a = var
%b = addnw %a, 1:i8
pc %b 0
infer %b (harvestedFromUse)
";

const OBJECTS: &str =
    r#"{"file":"a \"b\"\\c.opt","key":"9ab2c4fc084674aeb23a5e4d7efe9e8c77a57da1de4e8c3c53440204b97cc386","line":3,"offset":25,"text":"%0:i32 = var\ninfer %0\n"}
{"column":10,"file":"a \"b\"\\c.opt","hint":null,"line":6,"message":"expected a constant, var, block, phi, or instruction","offset":81}
{"file":"a \"b\"\\c.opt","key":"743f1d3c80c8d473ae08780d477c237548e5bf612101b71798227faa2f68c740","line":10,"offset":99,"text":"%a = var\n%b = addnw %a, 1:i8\npc %b 0\ninfer %b (harvestedFromUse)\n"}
"#;

const RENAMED: &str =
    r#"{"file":"a \"b\"\\c.opt","key":"9ab2c4fc084674aeb23a5e4d7efe9e8c77a57da1de4e8c3c53440204b97cc386","line":3,"offset":25,"text":"%0:i32 = var\ninfer %0\n"}
{"column":10,"file":"a \"b\"\\c.opt","hint":null,"line":6,"message":"expected a constant, var, block, phi, or instruction","offset":81}
{"file":"a \"b\"\\c.opt","key":"ca1cc899a40cb193c8d4e5dfb3c248150826fd53a0988123537a897226b0fadf","line":10,"offset":99,"text":"%0 = var\n%1 = addnw %0, 1:i8\npc %1 0\ninfer %1 (harvestedFromUse)\n"}
"#;

const REPORTED: &str = r#"a "b"\c.opt:6:10: expected a constant, var, block, phi, or instruction
     |
   6 | %1:i32 = foo %0
     |          ^
"#;

// The keys come from sha256sum, the lines and offsets from Python's `count` and `index`.
#[test]
fn objects_have_text_key_file_and_start(rt: HostRuntime) {
    let alloc = rt.alloc();
    let want = (1, OBJECTS, REPORTED);
    runs::<LeftHandSide>(&rt, alloc, OBJECTS_OF_ITEMS, (SOURCE, 1), want);
    runs::<LeftHandSide>(&rt, alloc, OBJECTS_OF_ITEMS, (SOURCE, 4096), want);
    runs::<LeftHandSide>(
        &rt,
        alloc,
        OBJECTS_OF_RENAMED,
        (SOURCE, 7),
        (1, RENAMED, REPORTED),
    );
    runs::<LeftHandSide>(
        &rt,
        alloc,
        OBJECTS_OF_RENAMED,
        ("; nothing\n", 7),
        (0, "", ""),
    );
}

const LINE: &str =
    r#"{"file":"a \"b\"\\c.opt","key":"400a936d0ac7637324413df9aaf2067ff68468e602a5446af1e454878b5bad1e","line":1,"offset":0,"text":"result 1"}
{"file":"a \"b\"\\c.opt","key":"096e929abe31157e5a522fecfe1333bb96b3252e9ee74923b6e9027206c4d068","line":1,"offset":9,"text":"result 2"}
{"column":26,"file":"a \"b\"\\c.opt","hint":null,"line":1,"message":"expected an integer literal","offset":25}
{"file":"a \"b\"\\c.opt","key":"8820375044723d31ea806186b0a729943dfbc2f1a594579823d2f6d9e07749c0","line":2,"offset":32,"text":"result 3"}
{"file":"a \"b\"\\c.opt","key":"cbc48443813dad8f0918dcb489d7cf560db31473b8b1e5fa932b9394d7f7b278","line":3,"offset":41,"text":"result 4"}
"#;

const LINE_REPORTED: &str = r#"a "b"\c.opt:1:26: expected an integer literal
     |
   1 | result 1 result 2 result result
     |                          ^
"#;

// A parse error comes after the items that its segment begins with.
#[test]
fn refused_segment_begins_with_items(rt: HostRuntime) {
    let source = "result 1 result 2 result result\nresult 3\nresult 4";
    let want = (1, LINE, LINE_REPORTED);
    runs::<RightHandSide>(&rt, rt.alloc(), OBJECTS_OF_ITEMS, (source, 3), want);
}

const VALID: &str =
    r#"{"file":"a \"b\"\\c.opt","key":"8820375044723d31ea806186b0a729943dfbc2f1a594579823d2f6d9e07749c0","line":1,"offset":0,"text":"result 3"}
{"file":"a \"b\"\\c.opt","key":"cbc48443813dad8f0918dcb489d7cf560db31473b8b1e5fa932b9394d7f7b278","line":3,"offset":10,"text":"result 4"}
"#;

const APART: &str =
    r#"{"file":"a \"b\"\\c.opt","key":"400a936d0ac7637324413df9aaf2067ff68468e602a5446af1e454878b5bad1e","line":1,"offset":0,"text":"result 1"}
{"file":"a \"b\"\\c.opt","key":"096e929abe31157e5a522fecfe1333bb96b3252e9ee74923b6e9027206c4d068","line":1,"offset":9,"text":"result 2"}
{"file":"a \"b\"\\c.opt","key":"8820375044723d31ea806186b0a729943dfbc2f1a594579823d2f6d9e07749c0","line":2,"offset":18,"text":"result 3"}
"#;

// The three items are one segment.
#[test]
fn items_of_a_segment_have_their_own_starts(rt: HostRuntime) {
    let want = (0, APART, "");
    for least in [1, 4096] {
        let source = ("result 1 result\n2 result 3\n", least);
        runs::<RightHandSide>(&rt, rt.alloc(), OBJECTS_OF_ITEMS, source, want);
    }
}

// Also where all items of a chunk are valid.
#[test]
fn items_of_a_chunk_have_their_own_starts(rt: HostRuntime) {
    let want = (0, VALID, "");
    for least in [1, 4096] {
        let source = ("result 3\n\nresult 4\n", least);
        runs::<RightHandSide>(&rt, rt.alloc(), OBJECTS_OF_ITEMS, source, want);
    }
}

// The status of a run whose output fails after this number of calls, and whether it failed.
fn failed_output(rt: &impl Abort, alloc: Global, after: usize) -> (u8, bool) {
    let mut reader = BufReader::new(alloc, SOURCE.as_bytes()).expect(rt, SOURCE);
    let mut reported = Vec::new(alloc);
    let mut out = Watched::new(FaultyWriter::new(50, after));
    let mut err = Watched::new(&mut reported);
    let status = run_to::<LeftHandSide, BufReader<&[u8]>, FaultyWriter, &mut Vec<u8>>(
        alloc,
        OBJECTS_OF_ITEMS,
        &mut reader,
        &mut out,
        &mut err,
    );
    (status, out.failed())
}

#[test]
fn failed_output_has_status_2(rt: HostRuntime) {
    for after in 0..6 {
        let found = failed_output(&rt, rt.alloc(), after);
        equal(&rt, (after, found), (after, (2, true)));
    }
}
