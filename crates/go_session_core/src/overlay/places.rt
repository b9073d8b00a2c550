//! Paths that sessions name: in edits, and where they ask.
ghost use Rattle.std.specs.Prelude.{◌≡◌, ◌↔◌, ◌∷◌, ◌⊎◌, ◌==◌, IfErr, IfOk, IsTrue, false, length, position, true};
ghost use Rattle.go_path_core.specs.Path.{IsPath, IsPrefix, elements};
ghost use Rattle.go_path_core.specs.mirrors.Steps.{is_shorter, left_of};
ghost use Rattle.go_graph_core.specs.Workspaces.{is_path_inside};
ghost use Rattle.go_session_core.specs.overlay.Places.{IsPlaceRefusal};

use go_path_core::text_core::Rule;
use go_path_core::{ImportPath, Module, PathText};
use std::alloc::Global;

// Where the first slash stands.
fn slash(text: &[u8]) -> Option<usize>
    ensures { result ≡ position (λ b. b == 47) text.now }
{
    text.iter().position(|byte| *byte == b'/')
}

// The first element of a text, and what stands behind its slash.
fn next_element(text: &[u8]) -> (&[u8], Option<&[u8]>)
    ensures cut { elements text.now ≡ result.0.now ∷ left_of result.1 }
    ensures shorter { is_shorter result.1 (length text.now) }
{
    match slash(text) {
        Some(at) => (&text[..at], Some(&text[at + 1..])),
        None => (text, None),
    }
}

// Whether the elements of `outer` are the first of `path`.
fn is_within(path: &[u8], outer: &[u8]) -> bool
    ensures { IsTrue result ↔ IsPrefix (elements outer.now) (elements path.now) }
{
    let (element, rest) = next_element(outer);
    let (own, left) = next_element(path);
    if own != element {
        return false;
    }
    match (rest, left) {
        (None, _) => true,
        (Some(_), None) => false,
        (Some(outer), Some(path)) => is_within(path, outer),
    }
}

// Whether a text, which need not be a path, is a module's or lies below it, by elements.
fn is_text_inside(own: &str, path: &str) -> bool
    ensures { result ≡ is_path_inside own.now path.now }
{
    is_within(path.as_bytes(), own.as_bytes())
}

/// Whether a path is the module's or lies below it, by elements.
pub fn lies_inside(own: &Module, path: &ImportPath) -> bool
    ensures { result ≡ is_path_inside own.now path.now }
{
    own.contains(path)
}

// The path that a text is which was tested.
fn tested_path(alloc: Global, path: &str) -> Result<ImportPath, Rule>
    ensures ok { IfOk result (λ p. p ≡ path.now) }
    ensures err { IfErr result (λ rule. rule ≡ Rule.M0) }
{
    match ImportPath::read(alloc, path) {
        Ok(path) => Ok(path),
        Err(_) => Err(Rule::M0),
    }
}

/// The path of a package that a draft of this module may have.
///
/// # Errors
///
/// `Rule::E1` where the text is no path, and where it lies outside the module. `Rule::M0` where memory is wanting.
pub(crate) fn draft_path(alloc: Global, own: &Module, path: &str) -> Result<ImportPath, Rule>
    ensures ok { IfOk result (λ p. (p ≡ path.now) × (is_path_inside own.now path.now ≡ true)) }
    ensures err { IfErr result (λ rule. (rule ≡ Rule.M0) ⊎ ((rule ≡ Rule.E1) × (IsPath path.now → is_path_inside own.now path.now ≡ false))) }
{
    match PathText::read(path) {
        Ok(_) => {
            let read = tested_path(alloc, path)?;
            if lies_inside(own, &read) {
                Ok(read)
            } else {
                Err(Rule::E1)
            }
        }
        Err(_) => Err(Rule::E1),
    }
}

/// The path of a package that a session of this module may ask of.
///
/// # Errors
///
/// `Rule::Q4` where the text lies outside the module; else `Rule::Q1` where it is no path, so that no package has it. `Rule::M0` where memory is
/// wanting.
pub fn asked_path(alloc: Global, own: &Module, path: &str) -> Result<ImportPath, Rule>
    ensures ok { IfOk result (λ p. (p ≡ path.now) × (is_path_inside own.now path.now ≡ true)) }
    ensures err { IfErr result (λ rule. IsPlaceRefusal own.now path.now rule) }
{
    if !is_text_inside(own.as_str(), path) {
        return Err(Rule::Q4);
    }
    match PathText::read(path) {
        Ok(_) => {
            let read = tested_path(alloc, path)?;
            Ok(read)
        }
        Err(_) => Err(Rule::Q1),
    }
}
