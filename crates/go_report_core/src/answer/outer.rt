//! The faults of a file that are asked of its package as a whole.
ghost use Rattle.std.specs.Prelude.{◌≡◌, ◌++◌, IfOk, OnOk, drop, map, slice_get};
ghost use Rattle.go_term_core.specs.decl_core.Shown.{decl_shown};
ghost use Rattle.go_report_core.specs.answer.Outer.{block_faults_in, looped_decl_faults, looped_if, outer_faults, type_faults_in};
ghost use Rattle.go_report_core.specs.answer.mirrors.Steps.{is_set};

use crate::type_faults::PackageFault;
use go_block_core::{BlockFault, Blocks};
use go_expr_core::local_core::Fault;
use go_path_core::text_core::Rule;
use go_term_core::decl_core::TopDecl;
use std::alloc::{AllocError, Global};

/// A file of a package, with what is found of the package as a whole. All is lent.
#[derive(Clone, Copy)]
pub struct OuterAt<'a, 'o> {
    /// The number of the file among those of the package in order of name, from 0.
    pub file: usize,
    /// The blocks of the package, with their faults.
    pub blocks: &'a Blocks,
    /// The faults of the types that the package declares.
    pub type_faults: &'a [PackageFault],
    /// The declarations of the file outside functions, in order.
    pub decls: &'a [TopDecl<'o>],
    /// The place of the first of them among all declarations of the package outside functions, in order of file and number: how many the
    /// files before this one declare.
    pub first: usize,
    /// For each declaration of the package, by its place among all, whether it is a constant that is defined through itself.
    pub looped: &'a [bool],
}

// Adds the faults of blocks that are in a file.
fn add_block_faults(
    file: usize,
    found: &[BlockFault],
    faults: &mut Vec<Fault>,
) -> Result<(), AllocError>
    ensures { OnOk result (faults.new.items ≡ faults.old.items ++ block_faults_in file found.now) }
{
    for fault in found {
        if fault.file == file {
            faults.push(Fault {
                offset: fault.offset,
                rule: fault.rule.rule(),
            })?;
        }
    }
    Ok(())
}

// Adds the faults of types that are in a file.
fn add_type_faults(
    file: usize,
    found: &[PackageFault],
    faults: &mut Vec<Fault>,
) -> Result<(), AllocError>
    ensures { OnOk result (faults.new.items ≡ faults.old.items ++ type_faults_in file found.now) }
{
    for fault in found {
        if fault.file == file {
            faults.push(Fault {
                offset: fault.offset,
                rule: fault.rule,
            })?;
        }
    }
    Ok(())
}

// The flags from a place on.
fn flags_from(flags: &[bool], first: usize) -> &[bool]
    ensures { result.now ≡ drop first flags.now }
{
    if flags.len() < first {
        return &[];
    }
    &flags[first..]
}

// Whether a flag stands at a place and is set.
fn is_set(flags: &[bool], at: usize) -> bool
    ensures { result ≡ is_set (slice_get flags.now at) }
{
    match flags.get(at) {
        Some(flag) => *flag,
        None => false,
    }
}

// Adds the fault of a declaration, if it is defined through itself.
fn add_if_looped(
    is_looped: bool,
    decl: &TopDecl<'_>,
    faults: &mut Vec<Fault>,
) -> Result<(), AllocError>
    ensures { OnOk result (faults.new.items ≡ faults.old.items ++ looped_if is_looped (decl_shown decl.now)) }
{
    if is_looped {
        faults.push(Fault {
            offset: decl.ident.span.start as usize,
            rule: Rule::Y7,
        })?;
    }
    Ok(())
}

// Adds a fault for each declaration that is defined through itself, which the flag at its place says.
fn add_looped(
    decls: &[TopDecl<'_>],
    looped: &[bool],
    faults: &mut Vec<Fault>,
) -> Result<(), AllocError>
    ensures { OnOk result (faults.new.items ≡ faults.old.items ++ looped_decl_faults (map decl_shown decls.now) looped.now) }
{
    for (at, decl) in decls.iter().enumerate() {
        add_if_looped(is_set(looped, at), decl, faults)?;
    }
    Ok(())
}

/// The faults of a file that are asked of its package as a whole, each at its offset in bytes from the file's start: those of blocks (B1, B2,
/// B3), those of types, methods and receivers (B5, B6, Y1, Y2), and of each constant that is defined through itself Y7 at its identifier. They
/// come in this order, of each kind in the order in which they were found, and one may stand there twice.
///
/// The Go specification, "Declarations and scope", "Type declarations", "Struct types", "Method declarations", "Constant declarations".
///
/// # Errors
///
/// `AllocError` where memory is wanting.
pub fn outer_faults(alloc: Global, at: &OuterAt<'_, '_>) -> Result<Vec<Fault>, AllocError>
    ensures { IfOk result (λ faults. faults.items ≡ outer_faults at.now.file at.now.blocks.now at.now.type_faults.now (map decl_shown at.now.decls.now) (drop at.now.first at.now.looped.now)) }
{
    let mut faults = Vec::new(alloc);
    add_block_faults(at.file, at.blocks.faults(), &mut faults)?;
    add_type_faults(at.file, at.type_faults, &mut faults)?;
    add_looped(at.decls, flags_from(at.looped, at.first), &mut faults)?;
    Ok(faults)
}
