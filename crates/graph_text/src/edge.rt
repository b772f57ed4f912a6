//! Edges.

ghost use Rattle.std.specs.Prelude.{◌≡◌, ◌++◌, OnOk, string_bytes};
ghost use Rattle.graph_text.specs.Text.{edge_text};

use crate::row::{write_parts, write_rows, write_slots};
use flow_graph::graph::Edge;
use linear_formula::error::OutOfMemory;

/// Puts the text of an edge at the end.
pub fn write_edge(out: &mut String, edge: &Edge) -> Result<(), OutOfMemory>
    ensures { OnOk result (string_bytes out.new ≡ string_bytes out.old ++ edge_text edge.now) }
{
    match edge {
        Edge::Entry { to, params } => write!(out, "entry {to} {params}\n"),
        Edge::Assign {
            from,
            to,
            slot,
            value,
        } => {
            write!(out, "assign {from} {to} {slot}")?;
            write_parts(out, value.parts.as_slice())?;
            write!(out, " {}\n", value.constant)
        }
        Edge::Guard { from, to, rows } => {
            write!(out, "guard {from} {to}")?;
            write_rows(out, rows)
        }
        Edge::Input { from, to, slot } => write!(out, "input {from} {to} {slot}\n"),
        Edge::Pick {
            from,
            to,
            slot,
            rows,
        } => {
            write!(out, "pick {from} {to} {slot}")?;
            write_rows(out, rows)
        }
        Edge::Call {
            from,
            to,
            proc,
            args,
            results,
        } => {
            write!(out, "call {from} {to} {proc}")?;
            write_slots(out, args.as_slice())?;
            write_slots(out, results.as_slice())?;
            write!(out, "\n")
        }
        Edge::Assert { from, to, id, rows } => {
            write!(out, "assert {from} {to} {id}")?;
            write_rows(out, rows)
        }
        Edge::Return { from, to, slots } => {
            write!(out, "return {from} {to}")?;
            write_slots(out, slots.as_slice())?;
            write!(out, "\n")
        }
    }
}
