//! The text of a path: its elements, and the tests along them.
ghost use Rattle.std.specs.Prelude.{◌≡◌, ◌≤◌, ◌↔◌, ◌∷◌, ◌==◌, true, position, IsTrue, All, length};
ghost use Rattle.go_path_core.specs.Path.{elements, IsPathByte, IsElement, IsPath, IsPrefix};
ghost use Rattle.go_path_core.specs.mirrors.Steps.{left_of, is_shorter, has_internal, importable};

/// The most bytes of a path.
const MOST_BYTES: usize = 255;

/// The most elements of a path.
const MOST_ELEMENTS: u8 = 16;

// Where the first slash stands.
fn slash(text: &[u8]) -> Option<usize>
    ensures { result ≡ position (λ b. b == 47) text.now }
{
    text.iter().position(|byte| *byte == b'/')
}

// The first element of a text, and what stands behind its slash.
fn next_element(text: &[u8]) -> (&[u8], Option<&[u8]>)
    ensures cut { elements text.now ≡ result.0.now ∷ left_of result.1 }
    ensures shorter { is_shorter result.1 (length text.now) }
{
    match slash(text) {
        Some(at) => (&text[..at], Some(&text[at + 1..])),
        None => (text, None),
    }
}

fn is_path_byte(byte: u8) -> bool
    ensures { IsTrue result ↔ IsPathByte byte }
{
    matches!(byte, b'A'..=b'Z' | b'a'..=b'z' | b'0'..=b'9' | b'-' | b'.' | b'_' | b'~')
}

fn is_element(element: &[u8]) -> bool
    ensures { IsTrue result ↔ IsElement element.now }
{
    !element.is_empty()
        && element[0] != b'.'
        && element[element.len() - 1] != b'.'
        && element.iter().all(|byte| is_path_byte(*byte))
}

// Whether a text has at most so many elements, each well-formed.
fn has_elements(text: &[u8], limit: u8) -> bool
    ensures { IsTrue result ↔ ((length (elements text.now) ≤ limit) × All IsElement (elements text.now)) }
{
    if limit == 0 {
        return false;
    }
    let (element, rest) = next_element(text);
    if !is_element(element) {
        return false;
    }
    match rest {
        Some(text) => has_elements(text, limit - 1),
        None => true,
    }
}

/// Whether a text is a path.
pub(crate) fn is_path(text: &str) -> bool
    ensures { IsTrue result ↔ IsPath text.now }
{
    text.len() <= MOST_BYTES && has_elements(text.as_bytes(), MOST_ELEMENTS)
}

// Whether a text has an element `internal`.
fn has_internal(path: &[u8]) -> bool
    ensures { result ≡ has_internal (elements path.now) }
{
    let (element, rest) = next_element(path);
    if element == b"internal".as_slice() {
        return true;
    }
    match rest {
        Some(path) => has_internal(path),
        None => false,
    }
}

/// Whether a path may be imported by the package `from`. Most paths have no element `internal`: of these the importer's is
/// not looked at.
pub(crate) fn is_importable(from: &[u8], path: &[u8]) -> bool
    ensures { result ≡ importable true (elements from.now) (elements path.now) }
{
    if !has_internal(path) {
        return true;
    }
    can_import(true, Some(from), path)
}

// Whether what is left of a path may be imported, where `shared` says that the elements before it are
// the first of the importer's, of whose elements `from` is left.
fn can_import(shared: bool, from: Option<&[u8]>, path: &[u8]) -> bool
    ensures { result ≡ importable shared (left_of from.entry) (elements path.now) }
{
    let (element, rest) = next_element(path);
    if element == b"internal".as_slice() && !shared {
        return false;
    }
    let (own, left) = match from {
        Some(text) => {
            let (own, left) = next_element(text);
            (shared && own == element, left)
        }
        None => (false, None),
    };
    match rest {
        Some(path) => can_import(own, left, path),
        None => true,
    }
}

/// Whether the elements of `outer` are the first of `path`.
pub(crate) fn is_within(path: &[u8], outer: &[u8]) -> bool
    ensures { IsTrue result ↔ IsPrefix (elements outer.now) (elements path.now) }
{
    let (element, rest) = next_element(outer);
    let (own, left) = next_element(path);
    if own != element {
        return false;
    }
    match (rest, left) {
        (None, _) => true,
        (Some(_), None) => false,
        (Some(outer), Some(path)) => is_within(path, outer),
    }
}
