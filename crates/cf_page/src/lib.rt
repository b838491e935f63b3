//! The whole tool as one call over memory, for a page in a browser: the arguments, a script and a buffer for the
//! output. Contracts can name all these bytes, so what the page shows is what `cf_main` claims.
#![tactic(auto)]

ghost use Rattle.cf_page.specs.PageRun.{IsPageRun};

mod growing_sink;
mod play;
mod words;

use crate::play::play;
use crate::words::words_of;
use cf_base::Status;
use std::rt::Memory;

/// Runs the tool on a closed manager of each kind. `lines` has its arguments, separated by line feeds; empty `lines`
/// are one empty argument, which is refused. `script` is its standard input. Writes the output to the start of `out`
/// and its length in bytes into `count`. Returns the exit status of `cf_main`, but 5 if the output is longer than
/// `out`: then `out` stays as it was. Returns 2 also if `lines` are no UTF-8, and 6 if an allocation fails; then
/// `count` is 0. `memory` is the kit's value for the memory of the process; a caller that is not in Rattle passes
/// none.
#[unsafe(no_mangle)]
pub extern "C" fn cf_page_run(
    memory: Memory,
    lines: &[u8],
    script: &[u8],
    out: &mut [u8],
    count: &mut u64,
) -> i32
    ensures shown { IsPageRun lines.now script.now out.old result count.new out.new }
{
    *count = 0;
    let room = out.len();
    let Ok(text) = std::str::from_utf8(lines) else {
        return Status::Words.code() as i32;
    };
    let Ok(words) = words_of(memory, text) else {
        return Status::OutOfMemory.code() as i32;
    };
    match play(memory, words.as_slice(), script, out) {
        Some((status, length)) => {
            *count = length as u64;
            if length <= room {
                status.code() as i32
            } else {
                Status::WriteFault.code() as i32
            }
        }
        None => Status::OutOfMemory.code() as i32,
    }
}
