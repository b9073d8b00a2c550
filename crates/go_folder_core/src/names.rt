//! The names of files and folders.
ghost use Rattle.std.specs.Prelude.{◌≡◌};
ghost use Rattle.std.specs.List.{list_all};
ghost use Rattle.go_folder_core.specs.Names.{begins_hidden, kind_of_file, passed_over, is_source, is_good_name, name_byte};

/// The greatest number of files of one package.
pub const MAX_FILES: usize = 256;

/// The greatest number of bytes of a file's name.
const MAX_NAME: usize = 64;

/// What a file is by its name.
#[derive(Clone, Copy, Debug, PartialEq, Eq)]
pub enum FileKind {
    /// No source file of a package, as a test or another text.
    Other,
    /// A source file of a package.
    Source,
    /// A source file by the end of its name, whose name no source file may have.
    BadName,
}

// Whether the first byte of a name is a dot or an underscore.
fn is_hidden(name: &str) -> bool
    ensures { result ≡ begins_hidden name.now }
{
    match name.as_bytes().first() {
        Some(byte) => *byte == b'.' || *byte == b'_',
        None => false,
    }
}

// Whether the `go` command takes a file of that name for a source file of a package.
fn ends_as_source(name: &str) -> bool
    ensures { result ≡ is_source name.now }
{
    let bytes = name.as_bytes();
    !is_hidden(name)
        && bytes.ends_with(b".go".as_slice())
        && !bytes.ends_with(b"_test.go".as_slice())
}

fn is_name_byte(byte: u8) -> bool
    ensures { result ≡ name_byte byte }
{
    byte.is_ascii_alphanumeric() || byte == b'_' || byte == b'-' || byte == b'.'
}

fn are_name_bytes(bytes: &[u8]) -> bool
    ensures { result ≡ list_all name_byte bytes.now }
{
    bytes.iter().all(|byte| is_name_byte(*byte))
}

// Whether a name is short enough, and has no other bytes than letters, digits, `_`, `-` and `.`.
fn has_good_bytes(name: &str) -> bool
    ensures { result ≡ is_good_name name.now }
{
    name.len() <= MAX_NAME && are_name_bytes(name.as_bytes())
}

/// What a file is by its name. A source file has a name that ends in `.go` and not in `_test.go`, and begins with neither `.` nor `_`;
/// that name has at most 64 bytes, each a letter, a digit, `_`, `-` or `.`.
pub fn file_kind(name: &str) -> FileKind
    ensures { result ≡ kind_of_file name.now }
{
    if !ends_as_source(name) {
        return FileKind::Other;
    }
    if !has_good_bytes(name) {
        return FileKind::BadName;
    }
    FileKind::Source
}

/// Whether a folder is passed over, with all that lies in it: where its name begins with `.` or `_`, or is `testdata` or `vendor`.
pub fn is_passed_over(name: &str) -> bool
    ensures { result ≡ passed_over name.now }
{
    is_hidden(name) || name == "testdata" || name == "vendor"
}
