//! A reader of lines, and the lines that graphs have by their fields.

use c_tree::tree::{ProcId, Slot};
use flow_graph::graph::{Edge, Graph};
use linear_formula::formula::Cube;
use std::alloc::{AllocError, Global};
use std::test::Fail;

/// A line: a word and numbers.
#[derive(PartialEq, Debug, Drop)]
pub struct Line {
    pub word: String,
    pub numbers: Vec<i128>,
}

impl Line {
    fn new(alloc: Global, word: &str, numbers: &[i128]) -> Result<Line, AllocError> {
        Ok(Line {
            word: String::from_str(alloc, word)?,
            numbers: numbers.to_vec(alloc)?,
        })
    }

    /// Puts slots at the end, after their number.
    fn push_slots(&mut self, slots: &[Slot]) -> Result<(), AllocError> {
        self.numbers.push(slots.len() as i128)?;
        for slot in slots {
            self.numbers.push(i128::from(*slot))?;
        }
        Ok(())
    }
}

/// The line of this text: a word, and numbers after a blank each.
fn line_of(alloc: Global, text: &str) -> Result<Line, Fail> {
    let mut words = text.split(' ');
    let Some(word) = words.next() else {
        return Err(Fail::new("no word"));
    };
    let mut line = Line::new(alloc, word, &[])?;
    for number in words {
        let Ok(number) = number.parse::<i128>() else {
            return Err(Fail::new("no number"));
        };
        line.numbers.push(number)?;
    }
    Ok(line)
}

/// The lines of a text, each of which ends in a line feed.
pub fn lines_of(alloc: Global, text: &str) -> Result<Vec<Line>, Fail> {
    let Some(text) = text.strip_suffix("\n") else {
        return Err(Fail::new("no line feed at the end"));
    };
    let mut lines = Vec::new(alloc);
    for line in text.split('\n') {
        lines.push(line_of(alloc, line)?)?;
    }
    Ok(lines)
}

/// A line for each row: its columns with their coefficients, and the constant.
fn push_rows(lines: &mut Vec<Line>, alloc: Global, rows: &Cube) -> Result<(), AllocError> {
    for row in rows.atoms.as_slice() {
        let mut line = Line::new(alloc, "row", &[row.term.parts().len() as i128])?;
        for (column, coefficient) in row.term.parts() {
            line.numbers.push(i128::from(*column))?;
            line.numbers.push(*coefficient)?;
        }
        line.numbers.push(row.term.constant())?;
        lines.push(line)?;
    }
    Ok(())
}

/// The word of an edge, and the numbers of its nodes and what they name.
fn heading(alloc: Global, edge: &Edge) -> Result<Line, AllocError> {
    let (word, third) = match edge {
        Edge::Entry { params, .. } => ("entry", Some(*params)),
        Edge::Assign { slot, .. } => ("assign", Some(*slot)),
        Edge::Guard { .. } => ("guard", None),
        Edge::Input { slot, .. } => ("input", Some(*slot)),
        Edge::Pick { slot, .. } => ("pick", Some(*slot)),
        Edge::Call { proc, .. } => ("call", Some(*proc)),
        Edge::Assert { id, .. } => ("assert", Some(*id)),
        Edge::Return { .. } => ("return", None),
    };
    let mut line = Line::new(alloc, word, &[])?;
    if let Some(from) = edge.source() {
        line.numbers.push(i128::from(from))?;
    }
    line.numbers.push(i128::from(edge.target()))?;
    if let Some(number) = third {
        line.numbers.push(i128::from(number))?;
    }
    Ok(line)
}

fn rows_of(edge: &Edge) -> Option<&Cube> {
    match edge {
        Edge::Guard { rows, .. } | Edge::Pick { rows, .. } | Edge::Assert { rows, .. } => {
            Some(rows)
        }
        _ => None,
    }
}

/// Puts what else the line of an edge has at its end.
fn push_rest(line: &mut Line, edge: &Edge) -> Result<(), AllocError> {
    match edge {
        Edge::Assign { value, .. } => {
            line.numbers.push(value.parts.as_slice().len() as i128)?;
            for (coefficient, slot) in value.parts.as_slice() {
                line.numbers.push(i128::from(*slot))?;
                line.numbers.push(i128::from(*coefficient))?;
            }
            line.numbers.push(i128::from(value.constant))?;
        }
        Edge::Call { args, results, .. } => {
            line.push_slots(args.as_slice())?;
            line.push_slots(results.as_slice())?;
        }
        Edge::Return { slots, .. } => line.push_slots(slots.as_slice())?,
        _ => {
            if let Some(rows) = rows_of(edge) {
                line.numbers.push(rows.atoms.as_slice().len() as i128)?;
            }
        }
    }
    Ok(())
}

/// The lines of an edge: its own, and one for each of its rows.
fn push_edge(lines: &mut Vec<Line>, alloc: Global, edge: &Edge) -> Result<(), AllocError> {
    let mut line = heading(alloc, edge)?;
    push_rest(&mut line, edge)?;
    lines.push(line)?;
    if let Some(rows) = rows_of(edge) {
        push_rows(lines, alloc, rows)?;
    }
    Ok(())
}

/// The lines of graphs, of which this one is `main`'s.
pub fn expected_lines(
    alloc: Global,
    main: ProcId,
    graphs: &[Graph],
) -> Result<Vec<Line>, AllocError> {
    let mut lines = Vec::new(alloc);
    lines.push(Line::new(alloc, "smash-graphs", &[1])?)?;
    lines.push(Line::new(alloc, "main", &[i128::from(main)])?)?;
    lines.push(Line::new(alloc, "graphs", &[graphs.len() as i128])?)?;
    for graph in graphs {
        let numbers = [
            i128::from(graph.nodes),
            i128::from(graph.exit),
            i128::from(graph.fail),
            i128::from(graph.params),
            i128::from(graph.exits),
            i128::from(graph.slots),
            graph.edges.as_slice().len() as i128,
        ];
        lines.push(Line::new(alloc, "graph", &numbers)?)?;
        for edge in graph.edges.as_slice() {
            push_edge(&mut lines, alloc, edge)?;
        }
    }
    Ok(lines)
}
