//! Laws of heap images: an image is read back and determines its settings and objects, live objects
//! have an image, and equal objects have the same one. The functions do nothing: their contracts
//! are the laws.
ghost use Rattle.std.specs.Prelude.{◌≡◌, ◌≤◌, ℕ, List};
ghost use Rattle.cf_base.specs.Settings.{Profile, at_bound_one};
ghost use Rattle.cf_base.specs.declared.kind.Kind.TheVariants.{Moving};
ghost use Rattle.cf_base.specs.declared.kind.Layout.TheVariants.{Words};
ghost use Rattle.id_table.specs.Ids.{AreWithin};
ghost use Rattle.page_model.specs.Arrangement.{IsSound, pages_needed};
ghost use Rattle.page_model.specs.Held.{Held, Objects, objects};
ghost use Rattle.page_model.specs.Paging.{IsPaging, paging_of};
ghost use Rattle.id_table.specs.Sessions.{AreTied, IsGoing, RunState};
ghost use Rattle.id_table.specs.ById.{bytes_of};
ghost use Rattle.heap_image.specs.Decoded.{IsHeapImage, decoded, image_paging, whole};
ghost use Rattle.heap_image.specs.Heaps.{HaveImage, heap_image, image_under, live_objects};

use page_model::{objects_need_no_more_pages, pages_and_objects_add_up};

/// The image of settings `p`, of bound 1, and of objects `o` by id decodes to exactly these, if a
/// heap of kind Moving with these settings may hold the objects (`HaveImage`).
pub fn an_image_is_read_back()
    ensures { (p : Profile) (o : Objects) → HaveImage p o → decoded (image_under p o) ≡ whole p o }
{}

/// An image determines its settings, of bound 1, and objects by id: if `p` and `o` have an image
/// (`HaveImage`), which `q` and `n` have too, then `p` is `q` and `o` is `n`.
pub fn an_image_determines_its_objects()
    ensures { (p q : Profile) (o n : Objects) → HaveImage p o → HaveImage q n
        → image_under p o ≡ image_under q n → (p ≡ q) × (o ≡ n) }
{}

/// Clause `pages`: the objects of a sound arrangement `m` of the moving manager with the settings
/// `p` need, by `pages_needed`, no more pages than there are, whatever the `bounds` (1 or more) of
/// the classes. Clause `lives`: so the live objects of a run `s` in progress on a heap of kind
/// Moving, with ids of 16 bits, have an image under its settings with the bound 1.
pub fn live_objects_have_an_image()
    ensures pages { (p : Profile) (bounds : List ℕ) (m : Held) → IsPaging (paging_of p Words bounds)
        → IsSound (paging_of p Words bounds) m → pages_needed (image_paging p) (objects m) ≤ p.pages }
    ensures lives { (s : RunState) → IsGoing s → AreWithin s.session.ids → s.heap.kind ≡ Moving
        → HaveImage (at_bound_one s.heap.profile) (live_objects s) × IsHeapImage (heap_image s) }
{
    objects_need_no_more_pages();
    pages_and_objects_add_up();
}

/// Two runs whose ids each name one live object (`AreTied`) have the same image, whatever their
/// histories and bounds, if their pages, page sizes and proxies are equal, and the bytes under each
/// id.
pub fn equal_objects_have_one_image()
    ensures { (one other : RunState) → AreTied one.session one.heap → AreTied other.session other.heap
        → other.heap.profile.pages ≡ one.heap.profile.pages
        → other.heap.profile.page_words ≡ one.heap.profile.page_words
        → other.heap.profile.proxies ≡ one.heap.profile.proxies
        → ((id : ℕ) → bytes_of other id ≡ bytes_of one id)
        → heap_image other ≡ heap_image one }
{}
