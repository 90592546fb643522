//! Unified diffs. The expected ones are those of GNU `diff -u`.
use crate::checks::equal;
use souper_diff::unified::unified;
use std::alloc::Global;
use std::process::Abort;

// The diff of two texts has these lines after the two that name the file.
fn differ(rt: &impl Abort, alloc: Global, old: &str, new: &str, hunks: &str) {
    let found = unified(alloc, "f", old, new).expect(rt, "memory");
    let want = format!(in alloc; "--- a/f\n+++ b/f\n{hunks}").expect(rt, "memory");
    equal(rt, found.as_str(), want.as_str());
}

// Lines of numbers up to 12, but for these two.
fn numbers(rt: &impl Abort, alloc: Global, first: (u32, &str), second: (u32, &str)) -> String {
    let mut text = String::new(alloc);
    for n in 1..13u32 {
        let line = if n == first.0 {
            format!(in alloc; "{}\n", first.1)
        } else if n == second.0 {
            format!(in alloc; "{}\n", second.1)
        } else {
            format!(in alloc; "{n}\n")
        };
        let line = line.expect(rt, "memory");
        text.push_str(line.as_str()).expect(rt, "memory");
    }
    text
}

#[test]
fn equal_texts_have_no_diff(rt: HostRuntime) {
    let found = unified(rt.alloc(), "f", "a\nb", "a\nb").expect(&rt, "memory");
    equal(&rt, found.as_str(), "");
}

#[test]
fn few_lines_are_in_one_hunk(rt: HostRuntime) {
    let alloc = rt.alloc();
    differ(&rt, alloc, "x\n", "y\n", "@@ -1 +1 @@\n-x\n+y\n");
    differ(&rt, alloc, "", "x\n", "@@ -0,0 +1 @@\n+x\n");
    differ(&rt, alloc, "x\n", "", "@@ -1 +0,0 @@\n-x\n");
    // As many lines are kept as can be.
    let hunks = "@@ -1,7 +1,6 @@\n-a\n-b\n c\n-a\n b\n+a\n b\n a\n+c\n";
    differ(
        &rt,
        alloc,
        "a\nb\nc\na\nb\nb\na\n",
        "c\nb\na\nb\na\nc\n",
        hunks,
    );
}

#[test]
fn last_line_without_newline_is_marked(rt: HostRuntime) {
    let alloc = rt.alloc();
    let hunks = "@@ -1 +1 @@\n-x\n\\ No newline at end of file\n+x\n";
    differ(&rt, alloc, "x", "x\n", hunks);
    let hunks =
        "@@ -1,2 +1,2 @@\n a\n-x\n\\ No newline at end of file\n+y\n\\ No newline at end of file\n";
    differ(&rt, alloc, "a\nx", "a\ny", hunks);
}

#[test]
fn changes_that_are_near_share_a_hunk(rt: HostRuntime) {
    let alloc = rt.alloc();
    let old = numbers(&rt, alloc, (0, ""), (0, ""));
    let new = numbers(&rt, alloc, (2, "two"), (9, "nine"));
    let hunks =
        "@@ -1,12 +1,12 @@\n 1\n-2\n+two\n 3\n 4\n 5\n 6\n 7\n 8\n-9\n+nine\n 10\n 11\n 12\n";
    differ(&rt, alloc, old.as_str(), new.as_str(), hunks);
    let new = numbers(&rt, alloc, (2, "two"), (10, "ten"));
    let hunks =
        "@@ -1,5 +1,5 @@\n 1\n-2\n+two\n 3\n 4\n 5\n@@ -7,6 +7,6 @@\n 7\n 8\n 9\n-10\n+ten\n 11\n 12\n";
    differ(&rt, alloc, old.as_str(), new.as_str(), hunks);
}

#[test]
fn names_are_written_as_by_git(rt: HostRuntime) {
    let names = [
        ("/b/c.lhs", "--- a/b/c.lhs\n+++ b/b/c.lhs\n"),
        ("b c", "--- a/b c\t\n+++ b/b c\t\n"),
        ("b\"\n", "--- \"a/b\\\"\\012\"\n+++ \"b/b\\\"\\012\"\n"),
    ];
    for (path, head) in names {
        let found = unified(rt.alloc(), path, "x", "").expect(&rt, path);
        let is_headed = found.as_str().starts_with(head);
        equal(&rt, (found.as_str(), is_headed), (found.as_str(), true));
    }
}
