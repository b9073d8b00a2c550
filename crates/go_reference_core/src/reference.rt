//! What a use of a declaration is.

/// An identifier that is used, by where it stands. References are in order of package, of file and of number.
#[derive(Clone, Copy, Debug, PartialEq, Eq)]
pub struct Reference {
    /// The number of the package, in byte order of path, from 0.
    pub package: usize,
    /// The number of the file in its package, in byte order of name, from 0.
    pub file: usize,
    /// Its number among the occurrences of the file, in order of place, from 0.
    pub number: usize,
    /// The offset of its first byte, in bytes from the file's start.
    pub offset: usize,
}
