//! Where a name is replaced, and where offsets come to lie.
ghost use Rattle.std.specs.Prelude.{◌≡◌, ◌↔◌, ◌+◌, ◌*◌, ◌≤◌, ◌^◌, [], IsTrue, MatchOption, count_by, length, map, nat_lt, slice_get, unwrap_or};
ghost use Rattle.go_reference_core.specs.rename.Laws.{LiesWhereMoved};
ghost use Rattle.go_reference_core.specs.rename.Moving.{Lies, moves_of, names_in};

/// Where a name stands that is replaced by another one. Offsets and lengths count bytes.
pub struct Names {
    /// How long the name is.
    pub old: usize,
    /// How long the other one is.
    pub new: usize,
    /// The offsets at which the name begins, from the start of its file: by the number of the package, in byte order of path, and by that of the file there, in
    /// byte order of name. A package or a file that is not there has none.
    pub offsets: Vec<Vec<Vec<usize>>>,
}

impl Drop for Names {
    fn drop(self) {
        let Names {
            old: _,
            new: _,
            offsets: _,
        } = self;
    }
}

// The offsets of the file of a number; none where there is no such file.
fn file_offsets(files: &[Vec<usize>], file: usize) -> &[usize]
    ensures { result.now ≡ unwrap_or (slice_get (map (λ w. w.items) files.now) file) [] }
{
    match files.get(file) {
        Some(offsets) => offsets.as_slice(),
        None => &[],
    }
}

/// The offsets of the name in the file of two numbers.
pub(crate) fn offsets_in(names: &Names, package: usize, file: usize) -> &[usize]
    ensures { result.now ≡ names_in (moves_of names.now) «package» file }
{
    match names.offsets.get(package) {
        Some(files) => file_offsets(files.as_slice(), file),
        None => &[],
    }
}

// How many of these offsets are less than one.
fn count_before(offsets: &[usize], offset: usize) -> usize
    ensures count { result ≡ count_by (λ at. nat_lt at offset) offsets.now }
    ensures bound { result ≤ length offsets.now }
{
    let mut count = 0;
    for at in offsets {
        if *at < offset {
            count += 1;
        }
    }
    count
}

// An offset with so many bytes more, so often; none where that is 2^64 or more.
fn grown(offset: usize, count: usize, each: usize) -> Option<usize>
    ensures { MatchOption result (2 ^ 64 ≤ offset + count * each) (λ n. n ≡ offset + count * each) }
{
    let more = count.checked_mul(each)?;
    offset.checked_add(more)
}

// Whether an offset with so many bytes more, so often, is another.
fn is_grown(offset: usize, count: usize, each: usize, other: usize) -> bool
    ensures { IsTrue result ↔ (other ≡ offset + count * each) }
{
    match grown(offset, count, each) {
        Some(at) => at == other,
        None => false,
    }
}

// Whether an offset with so many bytes less, so often, is another.
fn is_shrunk(offset: usize, count: usize, each: usize, other: usize) -> bool
    ensures { IsTrue result ↔ (offset ≡ other + count * each) }
{
    is_grown(other, count, each, offset)
}

/// Whether an offset of the file of two numbers comes to lie at another one.
pub(crate) fn lies(names: &Names, package: usize, file: usize, from: usize, to: usize) -> bool
    ensures { IsTrue result ↔ Lies (moves_of names.now) «package» file from to }
{
    let count = count_before(offsets_in(names, package, file), from);
    let (old, new) = (names.old, names.new);
    if old <= new {
        return is_grown(from, count, new - old, to);
    }
    is_shrunk(from, count, old - new, to)
}

/// A law, with nothing to run: an offset that lies in no name, or at the first byte of one, comes to lie where the edits of the text put it.
pub fn offsets_lie_where_moved()
    ensures { LiesWhereMoved }
{}
