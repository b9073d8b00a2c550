//! What is looked up while the tree of a file is gone through.
use crate::pairs::{is_of_assembly, is_of_import, is_of_text};
use go_block_core::Blocks;
use go_block_core::graph_core::Workspace;
use go_denote_core::text_core::Rule;
use go_package_core::report_core::Answer;
use go_snap_core::PlacedFault;
use go_snap_core::make::package_of;
use go_term_core::decl_core::Places;

/// Which rules are looked for at a place.
#[derive(Clone, Copy)]
pub(crate) enum Wanted {
    /// This one.
    One(Rule),
    /// Those that refuse an import.
    Import,
    /// Those that say that files make no package.
    Assembly,
    /// Those of what an operator gives.
    Operator,
    /// Those of a value that gives no type to what is declared by it.
    Value,
    /// Those of second declarations.
    Block,
    /// Those of a key that is no field of the type itself.
    Promoted,
}

impl Wanted {
    /// Whether a rule is looked for.
    pub(crate) fn has(self, rule: Rule) -> bool {
        match self {
            Wanted::One(one) => one == rule,
            Wanted::Import => is_of_import(rule),
            Wanted::Assembly => is_of_assembly(rule),
            Wanted::Operator => matches!(rule, Rule::Y3 | Rule::Y7 | Rule::X1),
            Wanted::Value => matches!(rule, Rule::Y4 | Rule::Y7 | Rule::X1),
            Wanted::Block => matches!(rule, Rule::B1 | Rule::B2),
            Wanted::Promoted => matches!(rule, Rule::F1 | Rule::F3),
        }
    }
}

/// A file of a snapshot, with what is looked up there.
#[derive(Drop)]
pub(crate) struct Look<'a> {
    pub(crate) workspace: &'a Workspace,
    /// All faults of the snapshot, in order.
    pub(crate) faults: &'a [PlacedFault],
    /// The number of the package.
    pub(crate) package: usize,
    /// Its path.
    pub(crate) path: &'a str,
    /// The number of the file in its package.
    pub(crate) file: usize,
    /// What its occurrences have, in order of place.
    pub(crate) answers: &'a [Answer],
    /// What its package block and its file blocks bind.
    pub(crate) blocks: &'a Blocks,
    /// What it declares outside function bodies.
    pub(crate) places: &'a Places,
    /// Whether it has a fault.
    pub(crate) is_faulty: bool,
}

// Whether a fault stands in front of a place.
fn is_before(fault: &PlacedFault, package: usize, file: usize, offset: usize) -> bool {
    if fault.package != package {
        return fault.package < package;
    }
    if fault.file != file {
        return fault.file < file;
    }
    fault.offset < offset
}

/// The number of the first fault that does not stand in front of a place, among faults in order: as many as there are where all do.
pub(crate) fn first_fault(
    faults: &[PlacedFault],
    package: usize,
    file: usize,
    offset: usize,
) -> usize {
    faults.partition_point(|fault| is_before(fault, package, file, offset))
}

/// The number of the first fault at a place of a rule that is looked for.
pub(crate) fn fault_at(
    faults: &[PlacedFault],
    package: usize,
    file: usize,
    offset: usize,
    wanted: Wanted,
) -> Option<usize> {
    for number in first_fault(faults, package, file, offset)..faults.len() {
        let fault = &faults[number];
        if fault.package != package || fault.file != file || fault.offset != offset {
            return None;
        }
        if wanted.has(fault.rule) {
            return Some(number);
        }
    }
    None
}

/// The number of the fault by which the text of a file has no tree.
pub(crate) fn text_fault(faults: &[PlacedFault], package: usize, file: usize) -> Option<usize> {
    for number in first_fault(faults, package, file, 0)..faults.len() {
        let fault = &faults[number];
        if fault.package != package || fault.file != file {
            return None;
        }
        if is_of_text(fault.rule) {
            return Some(number);
        }
    }
    None
}

/// Whether a file has a fault.
pub(crate) fn has_faults(faults: &[PlacedFault], package: usize, file: usize) -> bool {
    match faults.get(first_fault(faults, package, file, 0)) {
        Some(fault) => fault.package == package && fault.file == file,
        None => false,
    }
}

// The number of the package of a path.
fn package_number(workspace: &Workspace, path: &str) -> Option<usize> {
    let packages = workspace.packages();
    package_of(packages, path)
}

impl<'a> Look<'a> {
    /// What the occurrence at an offset has.
    pub(crate) fn answer(&self, offset: usize) -> Option<&'a Answer> {
        match self
            .answers
            .binary_search_by_key(&offset, |answer| answer.offset)
        {
            Ok(number) => self.answers.get(number),
            Err(_) => None,
        }
    }

    /// The number of the first fault of the file at an offset of a rule that is looked for.
    pub(crate) fn fault(&self, offset: usize, wanted: Wanted) -> Option<usize> {
        fault_at(self.faults, self.package, self.file, offset, wanted)
    }

    /// The number of the package of a path.
    pub(crate) fn package_number(&self, path: &str) -> Option<usize> {
        if path == self.path {
            return Some(self.package);
        }
        package_number(self.workspace, path)
    }

    /// The number of the fault by which the files of a package make none.
    pub(crate) fn assembly_fault(&self, package: usize) -> Option<usize> {
        for number in first_fault(self.faults, package, 0, 0)..self.faults.len() {
            let fault = &self.faults[number];
            if fault.package != package {
                return None;
            }
            if is_of_assembly(fault.rule) {
                return Some(number);
            }
        }
        None
    }

    /// The number of the fault that refuses the import by which a name is bound in the file.
    pub(crate) fn import_fault(&self, name: &str, wanted: Wanted) -> Option<usize> {
        let binding = self.blocks.in_file(self.file, name)?;
        self.fault(binding.at, wanted)
    }
}
