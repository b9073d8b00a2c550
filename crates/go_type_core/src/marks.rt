//! Marks of numbered types, and the ends of chains.
ghost use Rattle.std.specs.Prelude.{◌≡◌, false, slice_index_or, None};
ghost use Rattle.go_type_core.specs.mirrors.Chained.{next_unless, root_at};

/// Whether a number bears a mark.
pub(crate) fn is_marked(marks: &[bool], number: usize) -> bool
    ensures { result ≡ slice_index_or marks.now number false }
{
    number < marks.len() && marks[number]
}

/// The number at which a chain ends, or none where it has no end.
pub(crate) fn end_at(ends: &[Option<usize>], number: usize) -> Option<usize>
    ensures { result ≡ slice_index_or ends.now number None }
{
    if number < ends.len() {
        ends[number]
    } else {
        None
    }
}

/// The number at which a chain ends, or the number itself where it has no end.
pub(crate) fn root_at(ends: &[Option<usize>], number: usize) -> usize
    ensures { result ≡ root_at ends.now number }
{
    match end_at(ends, number) {
        Some(root) => root,
        None => number,
    }
}

/// What a number leads to, but for marked ones.
pub(crate) fn next_unless(is_marked: bool, next: Option<usize>) -> Option<usize>
    ensures { result ≡ next_unless is_marked next }
{
    if is_marked { None } else { next }
}
