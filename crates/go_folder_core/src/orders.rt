//! What may be asked of a folder.

/// The form in which the faults of a check are written.
#[derive(Clone, Copy, Debug, PartialEq, Eq)]
pub enum Format {
    /// Lines for a person to read.
    Text,
    /// One JSON object a line for each fault.
    Json,
    /// A workflow command of GitHub for each fault, which is shown beside its line there.
    Github,
    /// One object of SARIF 2.1.0, for tools that collect what checkers find.
    Sarif,
}

/// When what is written has colours.
#[derive(Clone, Copy, Debug, PartialEq, Eq)]
pub enum Color {
    /// Where a terminal reads it.
    Auto,
    /// Always.
    Always,
    /// Never.
    Never,
}

/// How the faults of a check are to be written.
#[derive(Clone, Copy)]
pub struct Style {
    /// The form.
    pub format: Format,
    /// Whether faults that follow from others are written too. As JSON they always are.
    pub all: bool,
    /// When a text has colours.
    pub color: Color,
    /// Whether a text shows the lines of the source where no terminal reads it, too.
    pub source: bool,
}

/// What is to be checked.
#[derive(Clone, Copy)]
pub struct Order<'a> {
    /// The folder, or a file in it. `/...` at its end names the same folder, with all below it.
    pub folder: &'a str,
    /// The path of its module; if none is given, the one that a `go.mod` names, and without such a file the name of the folder.
    pub module_path: Option<&'a str>,
    /// How the faults are written.
    pub style: Style,
    /// How many threads work at once, 1 to 64; if none is told, as many as there are processors, 8 at most.
    pub workers: Option<usize>,
}

/// What is to be run.
#[derive(Clone, Copy)]
pub struct RunOrder<'a> {
    /// The folder, as of a check.
    pub folder: &'a str,
    /// The path of its module, as of a check.
    pub module_path: Option<&'a str>,
    /// The path of the package that is run; if none is given, the one package of the folder that is called `main`.
    pub main_path: Option<&'a str>,
    /// How many steps are done at most, one for each instruction.
    pub steps: u64,
    /// How many threads work at once, as of a check.
    pub workers: Option<usize>,
}
