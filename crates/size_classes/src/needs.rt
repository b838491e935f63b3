//! The class of each need, computed once, when the table of classes is made. The need of an object
//! is how many words it takes, its header included.
ghost use Rattle.std.specs.Prelude.{IfOk};
ghost use Rattle.size_classes.specs.Table.{IsClassTable};
ghost use Rattle.size_classes.specs.Layout.{ShowsClasses};

use std::alloc::{AllocError, Global};

/// Returns, for each need from 0 to `page_words` words, its class: the index of the least of
/// `sizes` that is at least the need. `sizes` rise from at least 4 words to `page_words`, which is at
/// most 16,384 (`IsClassTable`). Fails if the allocation fails.
pub(crate) fn classes_by_need(
    alloc: Global,
    sizes: &[u32],
    page_words: u32,
) -> Result<Vec<u8>, AllocError>
    requires { IsClassTable page_words sizes.now }
    ensures { IfOk result (λ v. ShowsClasses page_words sizes.now v.items) }
{
    let mut by_need = Vec::with_capacity(alloc, page_words as usize + 1)?;
    let mut class = 0u8;
    'needs: for need in 0..page_words + 1 {
        // The sizes rise, so the next one is large enough.
        if sizes[class as usize] < need {
            class += 1;
        }
        by_need.push(class)?;
    }
    Ok(by_need)
}
