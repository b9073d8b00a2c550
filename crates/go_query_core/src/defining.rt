//! Where an identifier that is used is declared.
ghost use Rattle.std.specs.Prelude.{◌≡◌, ◌↔◌, ◌⊎◌, IfErr, IfOk, IsTrue, MatchOption};
ghost use Rattle.std.specs.List.{list_any};
ghost use Rattle.go_parse_core.specs.tree_core.Occurrences.{NoneCovers, file_occs};
ghost use Rattle.go_expr_core.specs.denote_core.declared.things.Outcome.TheVariants as outcomes;
ghost use Rattle.go_complete_core.specs.snap_core.Snapshots.{file_in_shown};
ghost use Rattle.go_query_core.specs.Defining.{Declares, IsDefinition, IsDefinitionIn, IsIdentifierAt, IsLacking, IsRefusal, IsRefusalIn, IsUnused, IsUseIn, is_identifier, is_over};
ghost use Rattle.go_query_core.specs.mirrors.Uses.{HasOccurrences};

use go_complete_core::package_core::part_has_occurrences;
use go_complete_core::report_core::{Answer, Site};
use go_complete_core::snap_core::{FileIn, Snapshot};
use go_expr_core::denote_core::Outcome;
use go_import_core::path_core::ImportPath;
use go_parse_core::tree_core::at;
use go_scan_core::scan;
use go_tree_nodes::text_core::Rule;
use go_tree_nodes::token_core::{ScanError, Token, TokenKind};
use std::alloc::{AllocError, Global};

// Whether a token is an identifier.
fn is_identifier(kind: TokenKind) -> bool
    ensures { result ≡ is_identifier kind }
{
    matches!(kind, TokenKind::Identifier)
}

// Whether a token is an identifier that covers an offset.
fn is_over(token: &Token, offset: usize) -> bool
    ensures { result ≡ is_over offset token.now }
{
    is_identifier(token.kind)
        && token.span.start as usize <= offset
        && offset < token.span.end as usize
}

// Whether one of the tokens is an identifier that covers an offset.
fn any_over(tokens: &[Token], offset: usize) -> bool
    ensures { result ≡ list_any (is_over offset) tokens.now }
{
    for token in tokens {
        if is_over(token, offset) {
            return true;
        }
    }
    false
}

// Whether an identifier of a text covers an offset.
fn is_identifier_at(alloc: Global, text: &str, offset: usize) -> Result<bool, AllocError>
    ensures { IfOk result (λ b. IsTrue b ↔ IsIdentifierAt text.now offset) }
{
    match scan(alloc, text) {
        Ok(tokens) => Ok(any_over(&tokens, offset)),
        Err(ScanError::Fault(_)) => Ok(false),
        Err(ScanError::Memory) => Err(AllocError),
    }
}

/// The rule of an offset of a text at which nothing is used.
pub(crate) fn unused(alloc: Global, text: &str, offset: usize) -> Rule
    ensures { (result ≡ Rule.M0) ⊎ IsUnused text.now offset result }
{
    match is_identifier_at(alloc, text, offset) {
        Ok(true) => Rule::Q3,
        Ok(false) => Rule::Q2,
        Err(_) => Rule::M0,
    }
}

// The declaration that an occurrence has.
fn declared(answer: &Answer) -> Result<&Site, Rule>
    ensures ok { IfOk result (λ site. Declares answer.now.outcome site.now) }
    ensures err { IfErr result (λ rule. answer.now.outcome ≡ outcomes.Refused rule) }
{
    match &answer.outcome {
        Outcome::Declared(site) => Ok(site),
        Outcome::Selected(site, _) => Ok(site),
        Outcome::Refused(rule) => Err(*rule),
    }
}

// What the identifier has that is used at an offset of a file.
fn use_at(file: FileIn<'_>, offset: usize) -> Option<&Answer>
    requires { HasOccurrences (file_in_shown file) }
    ensures { MatchOption result (NoneCovers offset (file_occs (file_in_shown file.entry).tree)) (λ answer. IsUseIn (file_in_shown file.entry) offset answer.now) }
{
    match at(file.tree, offset) {
        Some(number) => Some(&file.made.answers.answers[number.0]),
        None => None,
    }
}

// The declaration of the identifier that is used at an offset of a file.
fn define_in(alloc: Global, file: FileIn<'_>, offset: usize) -> Result<&Site, Rule>
    requires { HasOccurrences (file_in_shown file) }
    ensures ok { IfOk result (λ site. IsDefinitionIn (file_in_shown file.entry) offset site.now) }
    ensures err { IfErr result (λ rule. (rule ≡ Rule.M0) ⊎ IsRefusalIn (file_in_shown file.entry) offset rule) }
{
    match use_at(file, offset) {
        Some(answer) => declared(answer),
        None => Err(unused(alloc, file.source.text(), offset)),
    }
}

/// The rule of a file that the package of a path has not.
pub(crate) fn lacking(snapshot: &Snapshot, path: &ImportPath) -> Rule
    ensures { IsLacking snapshot.now path.now result }
{
    match snapshot.part(path) {
        Some(_part) => Rule::Q2,
        None => Rule::Q1,
    }
}

/// The declaration of the identifier that is used at an offset in bytes of the file of a name, in the package of a path. A selector behind a value
/// has that of the member which it selects.
///
/// The time is linear in the occurrences of the file, and in its text where nothing is used at the offset.
///
/// # Errors
///
/// - `Rule::Q1` where there is no assembled package of the path.
/// - `Rule::Q2` where it has no file of the name, and where no identifier covers the offset.
/// - `Rule::Q3` where an identifier covers the offset that is not used: the package's name, and what is declared there.
/// - The rule by which the occurrence is refused.
/// - `Rule::M0` where memory is wanting.
///
/// The Go specification, "Declarations and scope", "Qualified identifiers", "Selectors".
pub fn define<'s>(
    alloc: Global,
    snapshot: &'s Snapshot,
    path: &ImportPath,
    file: &str,
    offset: usize,
) -> Result<&'s Site, Rule>
    ensures ok { IfOk result (λ site. IsDefinition snapshot.now path.now file.now offset site.now) }
    ensures err { IfErr result (λ rule. (rule ≡ Rule.M0) ⊎ IsRefusal snapshot.now path.now file.now offset rule) }
{
    // Each occurrence of a file has one answer.
    part_has_occurrences();
    let _packages = snapshot.sources().packages();
    match snapshot.file(path, file) {
        Some(found) => {
            let _imports = found.part.input().imports();
            define_in(alloc, found, offset)
        }
        None => Err(lacking(snapshot, path)),
    }
}
