//! What is the same in a program that was edited.

use std::alloc::Global;
use std::test::Fail;
use summary_keep::matching::matching;
use test_programs::program::program_of;

/// The new numbers of the first procedures and of the first assertions; none stands for the others.
type Numbers = ([Option<u32>; 4], [Option<u32>; 4]);

fn first_four(numbers: &[Option<u32>]) -> [Option<u32>; 4] {
    let mut four = [None; 4];
    for place in 0..4 {
        if place < numbers.len() {
            four[place] = numbers[place];
        }
    }
    four
}

/// How many procedures and assertions of the old program have an entry, and the first of these.
fn matched(alloc: Global, old: &str, new: &str) -> Result<(usize, usize, Numbers), Fail> {
    let old = program_of(alloc, old.as_bytes())?;
    let new = program_of(alloc, new.as_bytes())?;
    let pairs = matching(alloc, &old, &new)?;
    let numbers = (first_four(&pairs.procs), first_four(&pairs.asserts));
    Ok((pairs.procs.len(), pairs.asserts.len(), numbers))
}

/// An old source, a new one, and what is the same, with its number in the new one.
struct Edit {
    name: &'static str,
    old: &'static str,
    new: &'static str,
    procs: &'static [Option<u32>],
    asserts: &'static [Option<u32>],
}

const TURNS: &str = "int odd(int n); \
     int even(int n) { if (n <= 0) return 1; return odd(n - 1); } \
     int odd(int n) { if (n <= 0) return 0; return even(n - 1); } \
     int main() { assert(even(input()) != 2); return 0; }";

const TWO_DOWN: &str = "int h() { return 1; } int g() { return h(); } int u() { return 2; } \
     int main() { assert(g() == 1); return u(); }";

const TWO: &str = "int f(int a) { assert(a != 1); return a; } \
     int g(int a) { assert(a != 2); assert(a != 3); return a; } \
     int main() { return f(4) + g(5); }";

const EDITS: &[Edit] = &[
    Edit {
        name: "the same, with procedures that call each other",
        old: TURNS,
        new: TURNS,
        procs: &[Some(0), Some(1), Some(2)],
        asserts: &[Some(0)],
    },
    Edit {
        name: "one of two that call each other",
        old: TURNS,
        new: "int odd(int n); \
             int even(int n) { if (n <= 0) return 1; return odd(n - 1); } \
             int odd(int n) { if (n <= 1) return 0; return even(n - 1); } \
             int main() { assert(even(input()) != 2); return 0; }",
        procs: &[None, None, None],
        asserts: &[None],
    },
    Edit {
        name: "a callee has another name",
        old: TWO_DOWN,
        new: "int k() { return 1; } int g() { return k(); } int u() { return 2; } \
             int main() { assert(g() == 1); return u(); }",
        procs: &[None, None, Some(2), None],
        asserts: &[None],
    },
    Edit {
        name: "a constant two calls down",
        old: TWO_DOWN,
        new: "int h() { return 3; } int g() { return h(); } int u() { return 2; } \
             int main() { assert(g() == 1); return u(); }",
        procs: &[None, None, Some(2), None],
        asserts: &[None],
    },
    Edit {
        name: "procedures in another order",
        old: TWO,
        new: "int g(int a) { assert(a != 2); assert(a != 3); return a; } \
             int f(int a) { assert(a != 1); return a; } \
             int main() { return f(4) + g(5); }",
        procs: &[Some(1), Some(0), Some(2)],
        asserts: &[Some(2), Some(0), Some(1)],
    },
    Edit {
        name: "one assertion more in front, in another procedure",
        old: TWO,
        new: "int f(int a) { assert(a != 0); assert(a != 1); return a; } \
             int g(int a) { assert(a != 2); assert(a != 3); return a; } \
             int main() { return f(4) + g(5); }",
        procs: &[None, Some(1), None],
        asserts: &[None, Some(2), Some(3)],
    },
    Edit {
        name: "two assertions are exchanged",
        old: TWO,
        new: "int f(int a) { assert(a != 1); return a; } \
             int g(int a) { assert(a != 3); assert(a != 2); return a; } \
             int main() { return f(4) + g(5); }",
        procs: &[Some(0), None, None],
        asserts: &[Some(0), None, None],
    },
    Edit {
        name: "a procedure that only the old one has",
        old: "int u() { return 2; } int h() { return 1; } int main() { assert(h() == 1); return 0; }",
        new: "int h() { return 1; } int main() { assert(h() == 1); return 0; }",
        procs: &[None, Some(0), Some(1)],
        asserts: &[Some(0)],
    },
    Edit {
        name: "a procedure that only the new one has",
        old: "int h() { return 1; } int main() { assert(h() == 1); return 0; }",
        new: "int u() { return 2; } int h() { return 1; } int main() { assert(h() == 1); return 0; }",
        procs: &[Some(1), Some(2)],
        asserts: &[Some(0)],
    },
    Edit {
        name: "variables of other names",
        old: TWO,
        new: "int f(int x) { assert(x != 1); return x; } \
             int g(int y) { assert(y != 2); assert(y != 3); return y; } \
             int main() { return f(4) + g(5); }",
        procs: &[Some(0), Some(1), Some(2)],
        asserts: &[Some(0), Some(1), Some(2)],
    },
    Edit {
        name: "a procedure that gives no value any more",
        old: "int h() { assert(input() != 1); return 0; } int main() { h(); return 0; }",
        new: "void h() { assert(input() != 1); return; } int main() { h(); return 0; }",
        procs: &[None, None],
        asserts: &[None],
    },
    Edit {
        name: "a loop and its body",
        old: "int main() { int i = 0; while (i < 3) { assert(i != 5); i = i + 1; } return 0; }",
        new: "int main() { int i = 0; while (i < 3) { assert(i != 5); i = i + 2; } return 0; }",
        procs: &[None],
        asserts: &[None],
    },
];

/// The rows that come out otherwise.
fn wrong_row(alloc: Global) -> Result<&'static str, Fail> {
    for edit in EDITS {
        let wanted = (
            edit.procs.len(),
            edit.asserts.len(),
            (first_four(edit.procs), first_four(edit.asserts)),
        );
        if matched(alloc, edit.old, edit.new)? != wanted {
            return Ok(edit.name);
        }
    }
    Ok("none")
}

#[test]
fn edited_programs_are_matched(rt: HostRuntime) -> Result<(), Fail> {
    assert_eq!(rt; wrong_row(rt.alloc())?, "none");
    Ok(())
}
