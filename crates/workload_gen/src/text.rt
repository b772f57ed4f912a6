//! The workload program, line by line.

ghost use Rattle.std.specs.Prelude.{◌≡◌, ◌++◌, ◌≤◌, map, IfOk, OnOk, string_bytes, vec_len};
ghost use Rattle.std.specs.List.{flat_map};
ghost use Rattle.workload_gen.specs.Workload.{call_of, ended, main_line, numbers, procedure_line, text_of, workload_lines};

use crate::OutOfMemory;
use std::alloc::Global;

/// The most procedures beside `main`.
pub const MAX_NUMBER: u32 = 60;

/// The most bytes that a source may have.
pub const MAX_BYTES: usize = 65_536;

/// Appends the line of a procedure.
fn push_procedure(text: &mut String, index: u32) -> Result<(), OutOfMemory>
    ensures { OnOk result (string_bytes text.new ≡ string_bytes text.old
        ++ ended (procedure_line index)) }
{
    if index % 3 == 0 {
        writeln!(
            text,
            "int p{index}(int a) {{ if (a > 0) {{ return 1; }} assert(a != -{index}); return 0; }}"
        )?;
    } else {
        writeln!(
            text,
            "int p{index}(int a) {{ if (a > 0) {{ return 1; }} assert(a <= 0); return 0; }}"
        )?;
    }
    Ok(())
}

/// Appends the lines of the procedures.
fn push_procedures(text: &mut String, number: u32) -> Result<(), OutOfMemory>
    ensures { OnOk result (string_bytes text.new ≡ string_bytes text.old
        ++ text_of (map procedure_line (numbers number))) }
{
    for index in 1..=number {
        push_procedure(text, index)?;
    }
    Ok(())
}

/// Appends the calls of the procedures.
fn push_calls(text: &mut String, number: u32) -> Result<(), OutOfMemory>
    ensures { OnOk result (string_bytes text.new ≡ string_bytes text.old
        ++ flat_map call_of (numbers number)) }
{
    for index in 1..=number {
        write!(text, " if (k == {index}) {{ p{index}(v); }}")?;
    }
    Ok(())
}

/// Appends the line of `main`.
fn push_main(text: &mut String, number: u32) -> Result<(), OutOfMemory>
    ensures { OnOk result (string_bytes text.new ≡ string_bytes text.old
        ++ ended (main_line number)) }
{
    write!(text, "int main() {{ int k = input(); int v = input();")?;
    push_calls(text, number)?;
    writeln!(text, " return 0; }}")?;
    Ok(())
}

/// The text of the workload program with `number` procedures beside `main`. Each has one assertion,
/// and that of every third one can fail.
pub fn program_of(alloc: Global, number: u32) -> Result<Vec<u8>, OutOfMemory>
    requires some { 1 ≤ number }
    requires few { number ≤ MAX_NUMBER }
    ensures text { IfOk result (λ bytes. bytes.items ≡ text_of (workload_lines number)) }
    ensures fits { IfOk result (λ bytes. vec_len bytes ≤ MAX_BYTES) }
{
    let mut text = String::new(alloc);
    push_procedures(&mut text, number)?;
    push_main(&mut text, number)?;
    Ok(text.into_bytes())
}
