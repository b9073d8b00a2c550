//! Whether an input has ended, watched by a thread.
use std::alloc::{AllocError, Global};
use std::io::{ErrorKind, Read};
use std::sync::Arc;
use std::sync::atomic::{AtomicBool, Ordering};
use std::thread::{Builder, Threads};

/// The stack of the thread in bytes.
const STACK: usize = 131_072;

/// The most bytes of one read.
const PIECE: usize = 4096;

// Reads until nothing comes more, or a read fails.
fn read_out<R: Read>(reader: &mut R) {
    let mut buffer = [0u8; PIECE];
    for _ in 0..u64::MAX {
        match reader.read(&mut buffer) {
            Ok(0) => return,
            Ok(_) => (),
            Err(error) if error.kind() == ErrorKind::Interrupted => (),
            Err(_) => return,
        }
    }
}

/// Reads from a reader in a thread of its own, and sets the flag once it has ended or cannot be read. Nobody joins the thread: the program may end before
/// the input does.
///
/// # Errors
///
/// `AllocError` for want of memory, or of threads.
pub fn watch<T: Threads, R: Read + Send + Drop + 'static>(
    alloc: Global,
    threads: &T,
    reader: R,
) -> Result<Arc<AtomicBool, Global>, AllocError> {
    let ended = Arc::new(alloc, AtomicBool::new(false))?;
    let seen = Arc::try_clone(&ended)?;
    let watcher = Builder::new().stack_size(STACK).spawn(threads, move || {
        let mut reader = reader;
        read_out(&mut reader);
        seen.store(true, Ordering::SeqCst);
    });
    match watcher {
        Ok(_) => Ok(ended),
        Err(_) => Err(AllocError),
    }
}
