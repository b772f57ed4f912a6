//! Texts of graphs: one as a whole, and several that are read back.

use crate::reading::{Line, expected_lines, lines_of};
use flow_build::build::build;
use graph_text::print_graphs;
use std::alloc::Global;
use std::test::Fail;
use test_programs::program::program_of;

const SUM: &str = "int main(){ int x = 3; x = x + 4; assert(x == 7); return 0; }";

/// The text of the sum, by hand.
const SUM_TEXT: &str = "smash-graphs 1
main 0
graphs 1
graph 11 0 1 0 1 2 12
entry 4 0
guard 4 5 0
assign 2 3 1 0 0
return 3 0 1 1
assign 5 6 0 0 3
assign 6 8 1 1 0 1 4
assign 8 7 0 1 1 1 0
guard 7 9 2
row 1 0 1 -7
row 1 0 -1 7
assert 7 1 0 1
row 1 0 -1 8
assert 7 1 0 1
row 1 0 1 -6
assign 9 10 1 0 0
return 10 0 1 1
";

/// Values alone, inputs and a loop, a procedure after `main`, globals, a quotient, negative
/// numbers up to the ends of 64 bits.
const PROGRAMS: &[&str] = &[
    SUM,
    "int main(){ return 0; }",
    "int main(){ int n = input(); while (n > 0) { n = n - 1; } assert(n <= 0); return n; }",
    "int half(int x){ return x / 2; } int main(){ int y = half(9); assert(y == 4); return y; }",
    "int g = -7; int f(int a, int b){ g = g - a; return b; }
    int main(){ f(g, input()); assert(g != 0 || g < 1); return g; }",
    "int f(int n){ if (n <= 0) return 0; return f(n - 1) + 1; } int main(){ return f(3) % -5; }",
    "int main(){ int x = -9223372036854775807; x = x - 1; assert(-3 * x != 4); return x; }",
];

/// The lines of the text of a program's graphs, and the lines that its graphs have.
fn both(alloc: Global, source: &str) -> Result<(Vec<Line>, Vec<Line>), Fail> {
    let program = program_of(alloc, source.as_bytes())?;
    let graphs = build(alloc, &program)?;
    let text = print_graphs(alloc, program.main, &graphs)?;
    let Ok(text) = str::from_utf8(&text) else {
        return Err(Fail::new("no text"));
    };
    let expected = expected_lines(alloc, program.main, graphs.graphs.as_slice())?;
    Ok((lines_of(alloc, text)?, expected))
}

#[test]
fn writes_the_graph_of_a_sum(rt: HostRuntime) -> Result<(), Fail> {
    let program = program_of(rt.alloc(), SUM.as_bytes())?;
    let graphs = build(rt.alloc(), &program)?;
    let text = print_graphs(rt.alloc(), program.main, &graphs)?;
    assert!(rt; text.as_slice() == SUM_TEXT.as_bytes());
    Ok(())
}

#[test]
fn texts_are_read_back(rt: HostRuntime) -> Result<(), Fail> {
    for source in PROGRAMS {
        let (read, expected) = both(rt.alloc(), source)?;
        assert!(rt; read == expected, "{source}");
    }
    Ok(())
}
