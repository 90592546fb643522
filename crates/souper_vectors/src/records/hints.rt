//! Hints after parse errors.
use crate::records::support::{Command, runs};
use souper_ir::ast::LeftHandSide;

const SOURCE: &str = "%x = var
infer %x

%count = var
infer %cuont

%y = ad 1, 2
infer %y
";

const REPORTED: &str = "a.opt:5:7: no value named '%cuont' in scope
     |
   5 | infer %cuont
     |       ^
hint: did you mean '%count'?
a.opt:7:6: expected a constant, var, block, phi, or instruction
     |
   7 | %y = ad 1, 2
     |      ^
hint: did you mean 'add'?
";

const OBJECTS: &str =
    r#"{"file":"a.opt","key":"45c906728fdf092eaeca38f1b1a007db5a54e1210f944599fd029b24363dca1d","line":1,"offset":0,"text":"%x = var\ninfer %x\n"}
{"column":7,"file":"a.opt","hint":"did you mean '%count'?","line":5,"message":"no value named '%cuont' in scope","offset":38}
{"column":6,"file":"a.opt","hint":"did you mean 'add'?","line":7,"message":"expected a constant, var, block, phi, or instruction","offset":51}
"#;

#[test]
fn hints_follow_errors(rt: HostRuntime) {
    for capacity in [1, 64, 8192] {
        let want = (1, "%x = var\ninfer %x\n\n", REPORTED);
        let (command, source) = (Command::EachWithHints, (SOURCE, capacity));
        runs::<LeftHandSide>(&rt, rt.alloc(), command, source, want);
    }
}

#[test]
fn objects_have_hints(rt: HostRuntime) {
    let want = (1, OBJECTS, REPORTED);
    let (command, source) = (Command::ObjectsWithHints, (SOURCE, 8192));
    runs::<LeftHandSide>(&rt, rt.alloc(), command, source, want);
}
