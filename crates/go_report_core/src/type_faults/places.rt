//! Faults at places of the files of a package.
ghost use Rattle.std.specs.Prelude.{◌≡◌, ◌++◌, OnOk, map};
ghost use Rattle.go_summary_core.specs.typexpr_core.EntryOutlines.{outline_shown};
ghost use Rattle.go_report_core.specs.type_faults.Places.{all_located, located, file_place_of};

use go_path_core::text_core::Rule;
use go_select_core::embed_core::MemberFault;
use go_term_core::MemberPlace;
use go_term_core::decl_core::Outline;
use std::alloc::{AllocError, Global};

/// A rule that is broken in a file of a package.
#[derive(Clone, Copy, Debug, PartialEq, Eq)]
pub struct PackageFault {
    /// The number of the file among those of the package in order of name, from 0.
    pub file: usize,
    /// The offset in bytes from the file's start.
    pub offset: usize,
    pub rule: Rule,
}

// The file of a member and its offset there, where the member is one of the package's.
fn place_of(outlines: &[Outline<'_>], place: MemberPlace) -> Option<(usize, usize)>
    ensures { result ≡ file_place_of (map outline_shown outlines.now) place }
{
    match place {
        MemberPlace::Local(local) => Some((local.file, local.offset)),
        MemberPlace::Declared(decl) => match outlines.get(decl.file) {
            None => None,
            Some(outline) => match outline.places.place(decl.number) {
                None => None,
                Some(found) => Some((decl.file, found.at)),
            },
        },
    }
}

/// Adds a rule that is broken at a member.
pub(crate) fn add_fault(
    faults: &mut Vec<PackageFault>,
    outlines: &[Outline<'_>],
    place: MemberPlace,
    rule: Rule,
) -> Result<(), AllocError>
    ensures { OnOk result (faults.new.items ≡ faults.old.items ++ located (map outline_shown outlines.now) place rule) }
{
    match place_of(outlines, place) {
        None => Ok(()),
        Some((file, offset)) => {
            faults.push(PackageFault { file, offset, rule })?;
            Ok(())
        }
    }
}

/// Adds the faults of members.
pub(crate) fn add_faults(
    faults: &mut Vec<PackageFault>,
    outlines: &[Outline<'_>],
    found: &[MemberFault],
) -> Result<(), AllocError>
    ensures { OnOk result (faults.new.items ≡ faults.old.items ++ all_located (map outline_shown outlines.now) found.now) }
{
    for fault in found {
        add_fault(faults, outlines, fault.place, fault.rule)?;
    }
    Ok(())
}
