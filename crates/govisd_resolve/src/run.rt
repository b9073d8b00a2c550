//! A run of `govisd resolve`, from a reader to a writer.
ghost use Rattle.std.specs.Prelude.{◌≡◌, ◌+◌, false, take, string_bytes, IfOk, IfSome, Ok};
ghost use Rattle.go_tree_nodes.specs.Shapes.{file_of};
ghost use Rattle.govisd_resolve.specs.Inputs.{ReadsUpTo};
ghost use Rattle.govisd_resolve.specs.Reports.{IsReport, IsEnd, IsText, ReadsAll, end_of, has_no_items, max_bytes, the_fault};
ghost use Rattle.govisd_resolve.specs.mirrors.Making.{HasOneFile, IsAlone, IsTold};
ghost use Rattle.go_tree_nodes.specs.Spelling.{IsPlaced};

use crate::alone::{part_of, workspace_of};
use crate::input::{InputFault, LIMIT, read_input};
use crate::output::write_report;
use crate::told_lines::{fault_line, file_lines};
use go_block_core::graph_core::{SourceFile, Workspace, assemble};
use go_expr_core::local_core::Fault;
use go_package_core::package_part::Part;
use go_path_core::text_core::Rule;
use go_tree_nodes::File;
use std::alloc::{AllocError, Global};
use std::io::{Read, Write};

/// How a run ended.
#[derive(Clone, Copy, Debug, PartialEq, Eq)]
pub enum ResolveEnd {
    /// The report is written, and the source has no fault.
    Clean,
    /// The report is written, and names a fault.
    Faults,
    /// The reader failed, or gave too little at a time. Nothing is written.
    ReadFault,
    /// The writer failed. A first part of the report is written, or nothing of it, and never all.
    WriteFault,
    /// Memory ran out. Nothing is written.
    Memory,
}

// The text of a report, and whether it is of a source without fault.
#[derive(Drop)]
struct Report {
    text: Vec<u8>,
    clean: bool,
}

// The report of one fault.
fn fault_report(alloc: Global, offset: usize, rule: Rule) -> Result<Report, AllocError>
    ensures text { IfOk result (λ r. r.text.items ≡ the_fault offset rule) }
    ensures clean { IfOk result (λ r. r.clean ≡ false) }
{
    let text = fault_line(alloc, Fault { offset, rule })?;
    Ok(Report { text, clean: false })
}

// Whether nothing is reported.
fn is_clean(report: &[Fault]) -> bool
    ensures { result ≡ has_no_items report.now }
{
    report.is_empty()
}

// The report on a part whose package has one file, by the name and the tree of the file.
fn part_report(alloc: Global, name: &str, tree: &File, part: &Part) -> Result<Report, AllocError>
    requires placed { IsPlaced (file_of tree.now) }
    requires one { HasOneFile part.now.input }
    ensures { IfOk result (λ r. IsTold name.now (file_of tree.now) part.now.input r.clean r.text.items) }
{
    let content = part.content();
    let file = &content.files[0];
    let answers = &file.answers;
    let text = file_lines(alloc, name, tree, &answers.answers, &answers.faults)?;
    Ok(Report {
        text,
        clean: is_clean(&file.report),
    })
}

// The report on the one file of a workspace, which has this tree.
fn tree_report(
    alloc: Global,
    workspace: &Workspace,
    file: &SourceFile,
    tree: &File,
) -> Result<Report, AllocError>
    requires alone { IsAlone file.now workspace.now }
    requires tree { file.now.content ≡ Ok (file_of tree.now) }
    requires text { IsText file.now.text }
    ensures { IfOk result (λ r. IsReport file.now.text r.clean r.text.items) }
{
    let packages = workspace.packages();
    let source = packages[0].share()?;
    match assemble(source) {
        Ok(package) => {
            let part = part_of(alloc, workspace, tree, package)?;
            part_report(alloc, file.name(), tree, &part)
        }
        Err(fault) => fault_report(alloc, fault.offset, fault.rule),
    }
}

// The report on the one file of a workspace.
fn file_report(
    alloc: Global,
    workspace: &Workspace,
    file: &SourceFile,
) -> Result<Report, AllocError>
    requires alone { IsAlone file.now workspace.now }
    requires text { IsText file.now.text }
    ensures { IfOk result (λ r. IsReport file.now.text r.clean r.text.items) }
{
    match file.tree() {
        Ok(tree) => tree_report(alloc, workspace, file, tree),
        Err(fault) => fault_report(alloc, fault.offset, fault.rule),
    }
}

// The report on a text.
fn text_report(alloc: Global, text: String) -> Result<Report, AllocError>
    requires { IsText (string_bytes text) }
    ensures { IfOk result (λ r. IsReport (string_bytes text) r.clean r.text.items) }
{
    let workspace = workspace_of(alloc, text)?;
    let packages = workspace.packages();
    let files = packages[0].files();
    file_report(alloc, &workspace, &files[0])
}

// The report on bytes that may be too many, or no text.
fn report_of(alloc: Global, bytes: Vec<u8>) -> Result<Report, AllocError>
    ensures { IfOk result (λ r. IsReport bytes.items r.clean r.text.items) }
{
    if bytes.len() >= LIMIT {
        return fault_report(alloc, 0, Rule::E3);
    }
    match String::from_utf8(bytes) {
        Ok(text) => text_report(alloc, text),
        Err(_) => fault_report(alloc, 0, Rule::L1),
    }
}

// How a run ends whose input is not read.
fn end_of(fault: InputFault) -> ResolveEnd
    ensures { result ≡ end_of fault }
{
    match fault {
        InputFault::Reader(_) => ResolveEnd::ReadFault,
        InputFault::Memory => ResolveEnd::Memory,
    }
}

/// Reads a Go file, and writes what each identifier, import and call in it denotes.
///
/// The file is taken as `in.go`, the one file of the package of the path `local`, in a workspace without other packages. A file has a line
/// `OFFSET ROLE TEXT ANSWER` for each occurrence, in order, and then a line `fault OFFSET RULE` for each fault that no such line says, by offset,
/// then by the bytes of the rule's number. OFFSET counts bytes from 0; ROLE is `import`, `type`, `value`, `callee`, `qualifier`, `selector`, `key`
/// or `call`; TEXT is the identifier, the string of an import as it is spelled, or `(`; ANSWER is `universe.` with a predeclared name,
/// `local/in.go:` with the offset of the identifier that is declared, or the number of the rule that the occurrence breaks. A file whose package
/// has the name `_` has the one line `fault OFFSET K3`, at that name. Bytes that are no file have one line `fault OFFSET RULE`: E3 at 0 for more
/// than 1,048,576 bytes, of which one more is read at the most; L1 at 0 for no UTF-8; and else the fault of the text.
///
/// The report is made before any of it is written, and where the writer fails, what it took is a first part of the report. Reads and writes that
/// are interrupted are made again. What the reader has beyond 1,048,577 bytes stays in it.
pub fn run_resolve<R: Read, W: Write>(alloc: Global, reader: &mut R, writer: &mut W) -> ResolveEnd
    ensures end { IfSome (R.remaining reader.old) (λ bytes. IsEnd result (take (max_bytes + 1) bytes) (W.contents writer.old) (W.contents writer.new)) }
    ensures few { ReadsUpTo (max_bytes + 1) (R.remaining reader.old) (R.remaining reader.new) }
    ensures all { IfSome (R.remaining reader.old) (λ bytes. ReadsAll result (take (max_bytes + 1) bytes) (R.remaining reader.old) (R.remaining reader.new)) }
{
    let bytes = match read_input(alloc, reader) {
        Ok(bytes) => bytes,
        Err(fault) => return end_of(fault),
    };
    let Ok(report) = report_of(alloc, bytes) else {
        return ResolveEnd::Memory;
    };
    if write_report(writer, report.text.as_slice()).is_err() {
        return ResolveEnd::WriteFault;
    }
    if report.clean {
        ResolveEnd::Clean
    } else {
        ResolveEnd::Faults
    }
}
