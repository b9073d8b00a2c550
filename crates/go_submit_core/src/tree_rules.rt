//! The limits of the packages of one module.
ghost use Rattle.std.specs.Prelude.{◌≡◌, None, Some};
ghost use Rattle.std.specs.List.{list_all, list_any};
ghost use Rattle.go_graph_core.specs.Workspaces.{is_path_inside};
ghost use Rattle.go_submit_core.specs.Trees.{files_rule, has_bad_name, has_go_end, has_hidden_start, has_long_text, has_name_bytes, is_file_name, is_large_package, is_long, is_name_byte, is_outside, names_rule, size_rule, texts_rule, tree_rule};

use go_graph_core::{PackageSource, SourceFile};
use go_path_core::Module;
use go_path_core::text_core::Rule;

/// The most bytes of a text.
pub const MAX_TEXT: usize = 1_048_576;

/// The most files of a package.
pub const MAX_FILES: usize = 256;

/// The most packages of a tree.
pub const MAX_PACKAGES: usize = 128;

// Whether a byte may stand in the name of a file.
fn is_name_byte(byte: u8) -> bool
    ensures { result ≡ is_name_byte byte }
{
    (byte >= b'a' && byte <= b'z')
        || (byte >= b'A' && byte <= b'Z')
        || (byte >= b'0' && byte <= b'9')
        || byte == b'_'
        || byte == b'-'
        || byte == b'.'
}

fn are_name_bytes(name: &[u8]) -> bool
    ensures { result ≡ list_all is_name_byte name.now }
{
    name.iter().all(|byte| is_name_byte(*byte))
}

fn has_name_bytes(name: &[u8]) -> bool
    ensures { result ≡ has_name_bytes name.now }
{
    name.len() >= 4 && name.len() <= 64 && are_name_bytes(name)
}

fn has_hidden_start(name: &[u8]) -> bool
    ensures { result ≡ has_hidden_start name.now }
{
    name.starts_with(b".") || name.starts_with(b"_")
}

fn has_go_end(name: &[u8]) -> bool
    ensures { result ≡ has_go_end name.now }
{
    name.ends_with(b".go") && !name.ends_with(b"_test.go")
}

// Whether a file may have a name: 4 to 64 bytes of letters, digits, `_`, `-` and `.`, beginning with neither `.` nor `_`, ending in `.go` and not
// in `_test.go`.
fn is_file_name(name: &[u8]) -> bool
    ensures { result ≡ is_file_name name.now }
{
    has_name_bytes(name) && !has_hidden_start(name) && has_go_end(name)
}

/// Whether a text is the name of a source file: 4 to 64 bytes of `A-Z a-z 0-9 _ - .`, which begin with neither `.` nor `_`, and end in `.go` and not in
/// `_test.go`.
pub fn is_source_name(name: &str) -> bool
    ensures { result ≡ is_file_name name.now }
{
    is_file_name(name.as_bytes())
}

fn is_inside(own: &Module, source: &PackageSource) -> bool
    ensures { result ≡ is_path_inside own.now source.now.0 }
{
    own.contains(source.path())
}

fn is_outside(own: &Module, source: &PackageSource) -> bool
    ensures { result ≡ is_outside own.now source.now }
{
    !is_inside(own, source)
}

fn has_bad_name(source: &PackageSource) -> bool
    ensures { result ≡ has_bad_name source.now }
{
    source
        .files()
        .iter()
        .any(|file| !is_file_name(file.name().as_bytes()))
}

fn is_long(file: &SourceFile) -> bool
    ensures { result ≡ is_long file.now }
{
    file.text().len() > MAX_TEXT
}

fn has_long_text(source: &PackageSource) -> bool
    ensures { result ≡ has_long_text source.now }
{
    source.files().iter().any(is_long)
}

fn is_large_package(source: &PackageSource) -> bool
    ensures { result ≡ is_large_package source.now }
{
    source.files().len() > MAX_FILES
}

fn any_large(packages: &[PackageSource]) -> bool
    ensures { result ≡ list_any is_large_package packages.now }
{
    packages.iter().any(is_large_package)
}

fn any_long(packages: &[PackageSource]) -> bool
    ensures { result ≡ list_any has_long_text packages.now }
{
    packages.iter().any(has_long_text)
}

fn any_bad(packages: &[PackageSource]) -> bool
    ensures { result ≡ list_any has_bad_name packages.now }
{
    packages.iter().any(has_bad_name)
}

fn any_outside(own: &Module, packages: &[PackageSource]) -> bool
    ensures { result ≡ list_any (is_outside own.now) packages.now }
{
    packages.iter().any(|source| is_outside(own, source))
}

fn size_rule(packages: &[PackageSource]) -> Option<Rule>
    ensures { result ≡ size_rule packages.now }
{
    if packages.len() > MAX_PACKAGES {
        Some(Rule::E5)
    } else {
        None
    }
}

fn files_rule(packages: &[PackageSource]) -> Option<Rule>
    ensures { result ≡ files_rule packages.now }
{
    if any_large(packages) {
        Some(Rule::E4)
    } else {
        size_rule(packages)
    }
}

fn texts_rule(packages: &[PackageSource]) -> Option<Rule>
    ensures { result ≡ texts_rule packages.now }
{
    if any_long(packages) {
        Some(Rule::E3)
    } else {
        files_rule(packages)
    }
}

fn names_rule(packages: &[PackageSource]) -> Option<Rule>
    ensures { result ≡ names_rule packages.now }
{
    if any_bad(packages) {
        Some(Rule::E2)
    } else {
        texts_rule(packages)
    }
}

// The first of the rules E1 to E5 that these packages break as a tree of this module.
pub(crate) fn tree_rule(own: &Module, packages: &[PackageSource]) -> Option<Rule>
    ensures { result ≡ tree_rule own.now packages.now }
{
    if any_outside(own, packages) {
        Some(Rule::E1)
    } else {
        names_rule(packages)
    }
}
