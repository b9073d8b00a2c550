//! What a line asks.
use crate::text::Text;

/// What a line asks, and by which session it does where lines are numbered.
#[derive(Drop)]
pub struct Request {
    /// The number of the session, 1 to 32, or none where lines are not numbered.
    pub session: Option<u8>,
    /// What is asked.
    pub command: Command,
}

/// The commands, each with the object that asks it; where lines are numbered the object has the member `"s"` too. Members may stand in any order, and
/// no others beside them. Paths, names of files and names of types are the texts of the line, of whatever form: a desk judges them.
#[derive(Drop)]
pub enum Command {
    /// Begins a session of a module: `{"cmd":"open","module":MODULE}`.
    Open {
        /// The path of the module.
        module: Text,
    },
    /// Gives a file of the draft a text, or takes the file away: `{"cmd":"edit","path":PATH,"file":FILE,"text":TEXT}`, TEXT a string or `null`.
    Edit {
        /// The path of the package.
        path: Text,
        /// The name of the file.
        file: Text,
        /// The text, or none to take the file away.
        text: Option<Text>,
    },
    /// Builds the draft: `{"cmd":"build"}`.
    Build,
    /// Lists the packages that a package may import: `{"cmd":"list","from":PATH}`.
    List {
        /// The path of the package that asks.
        from: Text,
    },
    /// Tells the names of a package, or those of one of its types: `{"cmd":"doc","from":PATH,"path":PATH}`, with `"type":NAME` or without.
    Doc {
        /// The path of the package that asks.
        from: Text,
        /// The path of the package that is asked about.
        path: Text,
        /// The name of the type, or none for the package.
        type_name: Option<Text>,
    },
    /// Tells the names that may stand in place of an identifier: `{"cmd":"complete","path":PATH,"file":FILE,"offset":OFFSET}`, OFFSET an integer of
    /// 64 bits without a sign.
    Complete {
        /// The path of the package.
        path: Text,
        /// The name of the file.
        file: Text,
        /// The offset in bytes of a byte of the identifier.
        offset: u64,
    },
    /// Tells what an identifier denotes: `{"cmd":"define","path":PATH,"file":FILE,"offset":OFFSET}`.
    Define {
        /// The path of the package.
        path: Text,
        /// The name of the file.
        file: Text,
        /// The offset in bytes of a byte of the identifier.
        offset: u64,
    },
    /// Runs a package: `{"cmd":"run","path":PATH,"steps":STEPS}`, STEPS an integer from 1 to 10,000,000.
    Run {
        /// The path of the package.
        path: Text,
        /// The most instructions that are done.
        steps: u64,
    },
    /// Ends the session: `{"cmd":"close"}`.
    Close,
}
