//! Items with few names and with many. The parser's table of names has up to 3 entries in a slot before a new name, and one more for each 16
//! of all, up to 11. It grows with 65 entries and with 257; a block has two.
use crate::checks::equal_in;
use crate::sources::sums;
use crate::texts::kept::formats_as;
use souper_format::command::Kind;
use souper_format::items::read_items;
use std::alloc::Global;
use std::process::Abort;

// Whether the definitions are rejected with these lines after them.
fn is_refused(rt: &impl Abort, alloc: Global, definitions: &str, lines: &str) -> bool {
    let source = format!(in alloc; "{definitions}{lines}\n").expect(rt, "memory");
    read_items(alloc, Kind::Lhs, source.as_str(), None).is_err()
}

// The item is read and printed, with the last block before what its phi takes. One more definition is rejected if its name is defined
// before, and read otherwise; a use of a name that is not defined is rejected.
fn names_are_found(rt: &impl Abort, alloc: Global, count: u32, words: (&str, &str)) {
    let (start, end) = words;
    let sums = sums(rt, alloc, count, words);
    let block = format!(in alloc; "%{start}c{end} = block 1\n").expect(rt, "memory");
    let phi = format!(in alloc; "%p = phi %{start}c{end}, %{start}x{count}{end}\n").expect(
        rt, "memory",
    );
    let definitions = format!(in alloc; "{sums}{block}{phi}").expect(rt, "memory");
    let source = format!(in alloc; "{definitions}infer %p\n").expect(rt, "memory");
    let want = format!(in alloc; "{block}{sums}{phi}infer %p\n\n").expect(rt, "memory");
    formats_as(rt, alloc, source.as_str(), want.as_str());
    for (name, is_defined) in [("b", true), ("x1", true), ("c", true), ("new", false)] {
        let one_more = format!(in alloc; "%{start}{name}{end} = var\ninfer %p").expect(
            rt, "memory",
        );
        let refused = is_refused(rt, alloc, definitions.as_str(), one_more.as_str());
        equal_in(rt, refused, is_defined, one_more.as_str());
    }
    let unknown = format!(in alloc; "infer %{start}x{count}0{end}").expect(rt, "memory");
    let refused = is_refused(rt, alloc, definitions.as_str(), unknown.as_str());
    equal_in(rt, refused, true, unknown.as_str());
}

#[test]
fn names_of_items_of_many_sizes_are_found(rt: HostRuntime) {
    let of_one_slot = (
        "a_name_that_starts_and_",
        "_that_ends_as_all_the_others_of_this_item",
    );
    for words in [("", ""), ("", "_like_the_others"), of_one_slot] {
        for count in [
            2, 3, 4, 5, 6, 7, 8, 9, 10, 11, 12, 13, 57, 58, 59, 60, 61, 249, 251,
        ] {
            names_are_found(&rt, rt.alloc(), count, words);
        }
    }
}

// A name that has the slot of the others.
fn alike(rt: &impl Abort, alloc: Global, index: u32) -> String {
    format!(in alloc;
        "%a_name_that_starts_and_{index}_that_ends_as_all_the_others_of_this_item"
    ).expect(rt, "memory")
}

// Names of one slot after many others. The last ones find the others in the map.
#[test]
fn names_of_one_slot_after_others_are_found(rt: HostRuntime) {
    let alloc = rt.alloc();
    let mut definitions = sums(&rt, alloc, 70, ("", ""));
    for index in 0..14u32 {
        let name = alike(&rt, alloc, index);
        let line = format!(in alloc; "{name} = block 2\n").expect(&rt, "memory");
        definitions.push_str(line.as_str()).expect(&rt, "memory");
    }
    for index in 0..15u32 {
        let name = alike(&rt, alloc, index);
        let again = format!(in alloc; "{name} = var\ninfer %x70").expect(&rt, "memory");
        let used = format!(in alloc; "%p = phi {name}, 1, %x0\ninfer %p").expect(&rt, "memory");
        let refused = (
            is_refused(&rt, alloc, definitions.as_str(), again.as_str()),
            is_refused(&rt, alloc, definitions.as_str(), used.as_str()),
        );
        equal_in(&rt, refused, (index < 14, index == 14), name.as_str());
    }
}
