//! The arguments of the tool, which a caller passes as lines.
ghost use Rattle.std.specs.Prelude.{◌≡◌, IfOk, map, string_bytes};
ghost use Rattle.cf_page.specs.ArgumentWords.{argument_words};

use std::alloc::{AllocError, Global};
use std::rt::Memory;

/// The program's name, the first of the arguments.
const NAME: &str = "cf_tool";

/// Returns the arguments: the program's name, and then each line of `text`. Line feeds separate them, so an
/// empty text is one empty line. Fails only if memory runs out.
pub fn words_of(memory: Memory, text: &str) -> Result<Vec<String>, AllocError>
    ensures { IfOk result (λ words. map (λ word. string_bytes word) words.items ≡ argument_words text.now) }
{
    let alloc = Global::new(memory);
    let mut words = Vec::new(alloc);
    words.push(String::from_str(alloc, NAME)?)?;
    let mut rest = text;
    'lines: while let Some((word, more)) = rest.split_once('\n') {
        words.push(String::from_str(alloc, word)?)?;
        rest = more;
    }
    words.push(String::from_str(alloc, rest)?)?;
    Ok(words)
}
