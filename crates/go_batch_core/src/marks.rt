//! Marks by number.
ghost use Rattle.std.specs.Prelude.{◌≡◌, ◌↔◌, IsTrue, Some, length, slice_get, slice_set, true};

/// Whether a number is marked.
pub(crate) fn is_marked(marks: &[bool], number: usize) -> bool
    ensures { IsTrue result ↔ (slice_get marks.now number ≡ Some true) }
{
    match marks.get(number) {
        Some(mark) => *mark,
        None => false,
    }
}

/// Marks a number, where there is one.
pub(crate) fn set_mark(marks: &mut Vec<bool>, number: usize, mark: bool)
    ensures { marks.new.items ≡ slice_set marks.old.items number mark }
{
    if number < marks.len() {
        marks[number] = mark;
    }
}
