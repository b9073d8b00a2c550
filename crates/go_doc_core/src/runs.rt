//! The run of comments above a place.
ghost use Rattle.std.specs.Prelude.{◌≡◌, ◌≤◌, ◌<◌, ◌&&◌, nat_le, nat_lt, length, All};
ghost use Rattle.std.specs.List.Sorted.{IsNonDecreasingBy, IsPartitionPoint};
ghost use Rattle.go_scan_core.specs.Texts.{CommentHasItsText};
ghost use Rattle.go_scan_core.specs.Tokens.{CommentsInOrder};
ghost use Rattle.go_doc_core.specs.DocComments.{IsDocComment};
ghost use Rattle.go_doc_core.specs.mirrors.Climbing.{IsRunBetween, next_climb, ends_by};

use crate::lines::{begins_line, with_line_ends};
use go_tree_nodes::text_core::Span;
use go_tree_nodes::token_core::Comment;

// How far a run has been read upwards.
#[derive(Clone, Copy)]
struct Climb {
    // The run's bytes so far: from the first byte of the uppermost comment to the last byte of the lowest.
    found: Option<Span>,
    // The start of the comment that was read last.
    low: usize,
    // How many line ends stand between it and the uppermost comment of the run, or the place below; 2 where there are more.
    ends: usize,
}

// The bytes of a run with a comment above it.
fn with_above(found: Option<Span>, span: Span) -> Span
    ensures { result ≡ ends_by found span }
{
    match found {
        Some(below) => Span {
            start: span.start,
            end: below.end,
        },
        None => span,
    }
}

// Reads a comment above.
fn read_above(bytes: &[u8], climb: Climb, comment: Comment, behind: usize) -> Climb
    requires order { comment.span.start ≤ comment.span.end }
    requires above { comment.span.end ≤ climb.low }
    requires within { climb.low ≤ length bytes.now }
    requires few { climb.ends ≤ 2 }
    ensures { result ≡ next_climb bytes.now behind climb comment }
{
    let start = comment.span.start as usize;
    let end = comment.span.end as usize;
    let ends = with_line_ends(bytes, end, climb.low, climb.ends);
    if ends == 1 && start >= behind && begins_line(bytes, start) {
        return Climb {
            found: Some(with_above(climb.found, comment.span)),
            low: start,
            ends: 0,
        };
    }
    Climb {
        found: climb.found,
        low: start,
        ends: with_line_ends(bytes, start, end, ends),
    }
}

// How many comments end before a place, or at it.
fn count_above(comments: &[Comment], at: usize) -> usize
    requires { IsNonDecreasingBy (λ c. c.span.end) comments.now }
    ensures bound { result ≤ length comments.now }
    ensures split { IsPartitionPoint (λ c. c.span.end ≤ at) (λ c. at < c.span.end) comments.now result }
{
    comments.partition_point(
        |comment: &Comment| -> bool
            ensures { result ≡ nat_le comment.now.span.end at }
        { comment.span.end as usize <= at },
    )
}

// Whether a comment is left that may be above a run.
fn goes_on(count: usize, ends: usize) -> bool
    ensures { result ≡ (nat_lt 0 count && nat_lt ends 2) }
{
    count > 0 && ends < 2
}

// The bytes of the run of comments above a place.
fn run_above(bytes: &[u8], comments: &[Comment], at: usize, behind: usize) -> Option<Span>
    requires order { CommentsInOrder 0 comments.now (length bytes.now) }
    requires within { at ≤ length bytes.now }
    ensures { IsRunBetween bytes.now comments.now at behind result }
{
    let mut count = count_above(comments, at);
    let mut state = Climb {
        found: None,
        low: at,
        ends: 0,
    };
    'comments: while goes_on(count, state.ends) {
        count -= 1;
        state = read_above(bytes, state, comments[count], behind);
    }
    state.found
}

/// The doc comment of what stands at an offset in bytes of a text with these comments: the run of comments, each of which begins its line and each
/// of which but the last ends on the line above the next one, that ends on the line above the offset's. Comments that begin before the other offset
/// do not count. It is the text from the first byte of the first comment to the last byte of the last one, and empty where there is none.
///
/// A comment begins its line where white space alone stands before it there, or a byte order mark at the text's start. Code behind a comment on the
/// comment's last line does not break the run. The comments are all those of the text, as `comments` of `go_scan_core` gives them. The time is
/// linear in the run and two lines, but for a logarithm in the comments.
pub fn doc_comment<'t>(text: &'t str, comments: &[Comment], at: usize, behind: usize) -> &'t str
    requires order { CommentsInOrder 0 comments.now (length text.now) }
    requires texts { All (CommentHasItsText text.now) comments.now }
    ensures { IsDocComment text.now comments.now at behind result.now }
{
    let place = at.min(text.len());
    match run_above(text.as_bytes(), comments, place, behind) {
        Some(span) => match span.slice(text) {
            Some(doc) => doc,
            None => "",
        },
        None => "",
    }
}
