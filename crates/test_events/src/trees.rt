//! Trees of modules, by archives.
use go_graph_core::Workspace;
use go_path_core::Module;
use go_path_core::text_core::Rule;
use go_submit_core::ModuleTree;
use std::alloc::{AllocError, Global};
use test_probe::show::{Lines, put_archive};

/// The tree of a module that an archive writes.
///
/// # Errors
///
/// `Rule::O2` and `Rule::I1` where the module's path or a package's is none, the first of `Rule::E1` to `Rule::E5` that is broken, and `Rule::M0` for want
/// of memory.
pub(crate) fn tree_of(alloc: Global, module: &str, archive: &str) -> Result<ModuleTree, Rule> {
    let own = Module::read(alloc, module)?;
    let mut packages = Workspace::empty(alloc);
    put_archive(&mut packages, alloc, archive)?;
    ModuleTree::make(alloc, own, packages)
}

/// An archive of so many packages of a module with a file each, of so many files of one package, or of a file with so many bytes.
fn archive_of(alloc: Global, module: &str, kind: &str, count: usize) -> Result<String, AllocError> {
    let mut archive = Lines::new(alloc);
    if kind == "bytes" {
        archive.pieces(&["-- ", module, "/x.go --\n"]);
    }
    for number in 0..count {
        match kind {
            "packages" => {
                archive.pieces(&["-- ", module]);
                archive.count("/p", number, "/x.go --\n");
            }
            "files" => {
                archive.pieces(&["-- ", module]);
                archive.count("/f", number, ".go --\n");
            }
            _ => archive.add("\n"),
        }
    }
    archive.finish()
}

/// Adds whether a tree of a module can be made of an archive, or which rule refuses it, in a line. The words behind the module say what the archive has,
/// where none is given.
pub(crate) fn add_made(out: &mut Lines, alloc: Global, module: &str, words: &str, archive: &str) {
    let made = match words.split_once(' ') {
        Some((kind, count)) => {
            match archive_of(alloc, module, kind, count.parse().unwrap_or(0)) {
                Ok(archive) => tree_of(alloc, module, archive.as_str()),
                Err(AllocError) => Err(Rule::M0),
            }
        }
        None => tree_of(alloc, module, archive),
    };
    match made {
        Ok(_) => out.line("made"),
        Err(rule) => out.refuse(rule),
    }
}
