//! Laws of the definitions.
ghost use Rattle.go_scan_core.specs.Answered.{CommentsAreTheAnswer, OneListOfComments, TokensAreTheAnswer};
ghost use Rattle.go_scan_core.specs.Tokens.{OneAnswer};

/// A law, with nothing to run: a text has at most one answer, a list of tokens or a first fault,
/// in the sense of the clause `answer` of [`scan`](crate::scan).
pub fn one_answer()
    ensures { OneAnswer }
{}

/// A law, with nothing to run: the tokens or the first fault that the clause `value` of
/// [`scan`](crate::scan) names are an answer to the text in the sense of its clause `answer`, and
/// each answer is these.
pub fn tokens_are_the_answer()
    ensures { TokensAreTheAnswer }
{}

/// A law, with nothing to run: a text has at most one list of comments or first fault, in the sense
/// of the clause `answer` of [`comments`](crate::comments).
pub fn one_list_of_comments()
    ensures { OneListOfComments }
{}

/// A law, with nothing to run: the comments or the first fault that the clause `value` of
/// [`comments`](crate::comments) names are an answer to the text in the sense of its clause
/// `answer`, and each answer is these.
pub fn comments_are_the_answer()
    ensures { CommentsAreTheAnswer }
{}
