//! How source files are parsed: one after another, or at once.
use crate::at_once::read_files_at_once;
use go_graph_core::{SourceFile, read_files};
use std::alloc::{AllocError, Global};
use std::thread::Threads;

/// What parses source files.
pub trait Parser {
    ghost use Rattle.std.specs.Prelude.{◌≡◌, All, IfOk};
    ghost use Rattle.go_graph_core.specs.Sources.{IsRead};
    ghost use Rattle.go_graph_core.specs.Workspaces.{given_files, texts_of_files};

    /// Parses files, each by its name and text, in their order.
    ///
    /// # Errors
    ///
    /// `AllocError` for want of memory.
    fn parse(&self, files: Vec<(String, String)>) -> Result<Vec<SourceFile>, AllocError>
        ensures texts { IfOk result (λ v. texts_of_files v.items ≡ given_files files.items) }
        ensures read { IfOk result (λ v. All IsRead v.items) };
}

/// Parses files one after another.
#[derive(Clone, Copy)]
pub struct InTurn {
    pub alloc: Global,
}

impl Parser for InTurn {
    fn parse(&self, files: Vec<(String, String)>) -> Result<Vec<SourceFile>, AllocError> {
        read_files(self.alloc, files)
    }
}

/// Parses files by several threads.
#[derive(Drop)]
pub struct AtOnce<'a, T: Threads> {
    pub threads: &'a T,
    pub alloc: Global,
    /// How many threads parse at once.
    pub workers: usize,
}

impl<T: Threads> Parser for AtOnce<'_, T> {
    fn parse(&self, files: Vec<(String, String)>) -> Result<Vec<SourceFile>, AllocError> {
        read_files_at_once(self.threads, self.alloc, files, self.workers)
    }
}
