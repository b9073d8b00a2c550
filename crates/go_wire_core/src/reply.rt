//! What is answered to a request.
use crate::text::Text;
use go_text_core::{Name, Rule};

/// What is answered to a request, each with what its line has: `{"ok":ANSWER}`, or `{"err":RULE}` of a refusal, with the number of the session
/// behind it where lines are numbered (`{"ok":ANSWER,"s":1}`). Lines have no spaces, and members in byte order. Lists are written in the order that
/// they have.
#[derive(Drop)]
pub enum WireReply {
    /// A session has begun: `{"module":MODULE}`.
    Opened {
        /// The path of its module.
        module: Text,
    },
    /// It is done, and there is nothing to tell: `{}`.
    Done,
    /// The draft is built: `{"batch":N,"faults":[FAULT]}`.
    Built {
        /// How many batches the answer covers.
        batch: u64,
        /// The faults in the session's module.
        faults: Vec<FaultPlace>,
    },
    /// What a package may import: `{"batch":N,"importable":[ENTRY],"self":ENTRY}`.
    Listed {
        /// How many batches the answer covers.
        batch: u64,
        /// The package that asks.
        own: PackageEntry,
        /// The packages that it may import.
        importable: Vec<PackageEntry>,
    },
    /// The names of a package or of a type: `{"batch":N,"name":NAME,"path":PATH,"symbols":[SYMBOL]}`.
    Described {
        /// How many batches the answer covers.
        batch: u64,
        /// The name of the package.
        name: Name,
        /// The path of the package.
        path: Text,
        /// Its names, or those of the type.
        symbols: Vec<Symbol>,
    },
    /// The names that may stand in place of an identifier: `{"batch":N,"names":[NAME]}`.
    Completed {
        /// How many batches the answer covers.
        batch: u64,
        /// The names.
        names: Vec<Name>,
    },
    /// What an identifier denotes: `{"batch":N,"decl":DECLARATION}`.
    Defined {
        /// How many batches the answer covers.
        batch: u64,
        /// The declaration, as it is printed.
        declaration: Text,
    },
    /// What a package came to that ran: `{"batch":N,"end":END,"output":OUTPUT}`.
    Ran {
        /// How many batches the answer covers.
        batch: u64,
        /// How the run ended.
        end: RunEnd,
        /// What it printed.
        output: Text,
    },
    /// The request is refused: the number of the rule, as `"O1"`.
    Refused {
        /// The rule that it breaks.
        rule: Rule,
    },
}

/// How a run ended.
#[derive(Clone, Copy)]
pub enum RunEnd {
    /// The function `main` was left.
    Ended,
    /// It panicked.
    Panicked,
    /// All steps are done, and it goes on.
    Spent,
}

impl RunEnd {
    ghost use Rattle.std.specs.Prelude.{◌≡◌};
    ghost use Rattle.go_wire_core.specs.Kinds.{end_word};

    /// The word for it: `ended`, `panicked`, or the number of the rule on spent steps, `J3`.
    pub fn word(self) -> &'static str
        ensures { result.now ≡ end_word self }
    {
        match self {
            RunEnd::Ended => "ended",
            RunEnd::Panicked => "panicked",
            RunEnd::Spent => "J3",
        }
    }
}

/// A fault, with where it stands: `{"at":"PATH/FILE:OFFSET","rule":RULE}`.
#[derive(Drop)]
pub struct FaultPlace {
    /// The path of the package.
    pub path: Text,
    /// The name of the file.
    pub file: Text,
    /// The offset in bytes.
    pub offset: u64,
    /// The rule that is broken.
    pub rule: Rule,
}

/// What is listed of a package: `{"Deps":[PATH],"GoFiles":[FILE],"ImportPath":PATH,"Imports":[PATH],"Name":NAME}`.
#[derive(Drop)]
pub struct PackageEntry {
    /// The paths of all packages that it reaches by imports.
    pub deps: Vec<Text>,
    /// The names of its files.
    pub files: Vec<Text>,
    /// Its path.
    pub path: Text,
    /// The paths that it imports.
    pub imports: Vec<Text>,
    /// Its name.
    pub name: Name,
}

/// What a name is.
#[derive(Clone, Copy)]
pub enum SymbolKind {
    /// A constant.
    Const,
    /// A variable.
    Var,
    /// A type.
    Type,
    /// A function.
    Func,
    /// A field of a type.
    Field,
    /// A method of a type.
    Method,
}

impl SymbolKind {
    ghost use Rattle.std.specs.Prelude.{◌≡◌};
    ghost use Rattle.go_wire_core.specs.Kinds.{kind_word};

    /// The word for it: `const`, `var`, `type`, `func`, `field` or `method`.
    pub fn word(self) -> &'static str
        ensures { result.now ≡ kind_word self }
    {
        match self {
            SymbolKind::Const => "const",
            SymbolKind::Var => "var",
            SymbolKind::Type => "type",
            SymbolKind::Func => "func",
            SymbolKind::Field => "field",
            SymbolKind::Method => "method",
        }
    }
}

/// What is told of a name: `{"doc":COMMENT,"kind":KIND,"name":NAME}`, and of a member of a type `"path":[NAME]` behind it.
#[derive(Drop)]
pub struct Symbol {
    /// The comment before its declaration, as it stands in the source, or the empty text.
    pub doc: Text,
    /// What it is.
    pub kind: SymbolKind,
    /// The name.
    pub name: Name,
    /// Of a field or a method of a type the embedded fields through which it is reached; of a name of a package none.
    pub through: Option<Vec<Name>>,
}
