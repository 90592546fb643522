//! Objects of items with their widths, and of items without.
use crate::support::objects;
use souper_typed::Form;

#[test]
fn objects_have_widths_or_a_flaw(rt: HostRuntime) {
    let source = "%x = var\ninfer %x\n%x:i8 = var\n%y = eq %x, 1\ninfer %y\n";
    let run = objects(&rt, rt.alloc(), Form::Widths, source);
    assert_eq!(&rt; run.status, 1);
    let rest = run
        .out()
        .strip_prefix(
            "{\"column\":null,\"file\":\"a.lhs\",\"hint\":\"write %x:i32\",\"line\":1,\"message\":\"no widths: a width is missing\",\"offset\":0,\"source\":\"%x = var\\n\",\"statement\":1}\n{\"file\":\"a.lhs\",\"key\":\"",
        )
        .expect(&rt, run.out());
    let (key, rest) = rest.split_once('"').expect(&rt, run.out());
    assert_eq!(&rt; key.len(), 64);
    let want =
        ",\"line\":3,\"offset\":18,\"text\":\"%x:i8 = var\\n%y:i1 = eq %x, 1:i8\\ninfer %y\\n\",\"widths\":[8,1]}\n";
    assert_eq!(&rt; rest, want);
}
