//! Laws of heap images and of modes `save` and `load`: which bytes are an image, that a broken rule
//! of images stays broken, how many bytes an image has, that the script that `load` prints makes the
//! image's objects, that the two modes undo each other, and that their claims exclude wrong output.
//! The functions do nothing but call other laws for their contracts: the contract of each is a
//! theorem.
ghost use Rattle.std.specs.Prelude.{IsTrue, ◌≡◌, ◌≢◌, ◌↔◌, ◌+◌, ◌*◌, ◌<◌, ◌^◌, ◌++◌, [], ℕ, List, None, Option, Some, codes, false, length, map, true};
ghost use Rattle.run_model.specs.Terms.{AreBytes, at_bound_one, EveryBoundIsOne, get, insert, IsGoing, Item, items, len, Moving, Objects, paging_in, Profile, Reply, RunState, said};
ghost use Rattle.cf_base.specs.declared.status.Status.TheVariants.{BadImage, Done};
ghost use Rattle.heap_image.specs.Decoded.{IsHeapImage, decoded, whole};
ghost use Rattle.heap_image.specs.Heaps.{HaveImage, image_under, live_objects};
ghost use Rattle.heap_image.specs.Load.{IsLoading};
ghost use Rattle.top_call.specs.ImageClaims.{MeetsLoad, MeetsSave};
ghost use Rattle.top_call.specs.Images.{IsImageOf};
ghost use Rattle.top_call.specs.ImageScript.{after_items, state_of_objects, script_items, script_under};
ghost use Rattle.top_call.specs.Loads.{EndsLoad};
ghost use Rattle.top_call.specs.Saves.{EndsSave, saved};
ghost use Rattle.page_model.specs.Figures.{asked_bytes};
ghost use Rattle.run_model.specs.Runs.{Run};
ghost use Rattle.script_loop.specs.ScriptOutcome.{Effects, IsClean};
ghost use Rattle.script_laws.specs.Histories.{AreAlike, AreFurther};

use heap_image::{an_image_determines_its_objects, an_image_is_read_back};
use script_laws::equal_objects_get_equal_replies;

/// Mode `load` accepts only images. `images`: bytes that it accepts are the image of some objects
/// under some settings, byte for byte. `exactly`: bytes decode to the settings `p` and the objects
/// `o` if and only if they are the image of these. So an image that is read and written again has
/// the same bytes.
pub fn only_images_are_read()
    ensures images { (bytes : List ℕ) → AreBytes bytes → IsHeapImage bytes
        → (p : Profile) × (o : Objects) × IsImageOf bytes p o }
    ensures exactly { (bytes : List ℕ) (p : Profile) (o : Objects) → AreBytes bytes
        → (decoded bytes ≡ whole p o) ↔ IsImageOf bytes p o }
{
    an_image_is_read_back();
}

/// If `bytes` break a rule of images, and not only because they end too early, then all longer bytes that
/// begin with them decode to the same, and break the rule at the same offset. So a prefix of an image breaks
/// no rule except that it ends too early.
pub fn a_broken_rule_stays_broken()
    ensures { (bytes more : List ℕ) (at : ℕ) → (decoded bytes).broken ≡ Some at → (decoded bytes).is_cut ≡ false
        → decoded (bytes ++ more) ≡ decoded bytes }
{}

/// If ids have 16 bits, the length of an image is 20 bytes, and for each object 6 bytes and the object's own.
pub fn the_size_of_an_image_is_known_beforehand()
    ensures { (p : Profile) (o : Objects) → ((id : ℕ) (v : List ℕ) → get o id ≡ Some v → id < 2 ^ 16)
        → length (image_under p o) ≡ 20 + 6 * len o + asked_bytes o }
{}

/// Four facts about the script that mode `load` prints for objects `o`, if they have an image under the
/// settings `p`. `read`: its items are the `heap` line and the commands that make the objects. `clean`: it
/// has no bad line and is within the limit of a script. `makes`: its items leave exactly the objects `o`.
/// `replies`: in every run on a moving manager each reply is `ok`.
pub fn printed_scripts_are_read_back()
    ensures read { (p : Profile) (o : Objects) → HaveImage p o → items (script_under p o) true ≡ script_items p o }
    ensures clean { (p : Profile) (o : Objects) → HaveImage p o → IsClean (Some (script_under p o)) }
    ensures makes { (p : Profile) (o : Objects) → HaveImage p o
        → after_items Moving None (script_items p o) ≡ Some (state_of_objects p o) }
    ensures replies { (p : Profile) (o : Objects) (replies : List Reply) (last : Option RunState) → HaveImage p o
        → Run Moving None (items (script_under p o) true) replies last
        → replies ≡ map (λ i. said (codes "ok")) (script_items p o) }
{}

/// If a call `one` in mode `load` reads the image `all` and prints `script`, a call `two` in mode `save` runs
/// this script, and both calls end with `Done`, then `two` prints the image again, byte for byte. The run
/// `to` that `one` leaves and the run `end` that `two` leaves have the same objects by id.
pub fn what_was_loaded_is_saved_again()
    ensures { (from to begin end : RunState) (one two : Effects) (all script : List ℕ)
        → AreBytes all → one.had ≡ Some all → one.status ≡ Done → one.before ≡ Some [] → one.after ≡ Some script → EndsLoad from one to
        → begin.heap.kind ≡ Moving
        → two.had ≡ Some script → two.before ≡ Some [] → two.status ≡ Done → EndsSave begin two end
        → (two.after ≡ Some all) × AreAlike to end × IsGoing end }
{
    only_images_are_read();
}

/// A call `one` in mode `save` runs a script with a `heap` line, ends with `Done`, and leaves the run `to`.
/// `image`: what it prints is an image. `taken`: a call `two` in mode `load` never refuses this image.
/// `loads`: if `two` ends with `Done`, the run `there` that it leaves has the same objects by id, under the
/// same settings with the bound 1. `further`: so if the settings of `to` have the bound 1, and all its
/// classes too, the same further items (`AreFurther`) get the same replies from both runs.
pub fn what_was_saved_is_loaded_again()
    ensures image { (from to : RunState) (one : Effects) → one.status ≡ Done → EndsSave from one to → IsTrue to.heap.is_open
        → IsHeapImage (saved to) }
    ensures taken { (from to : RunState) (one : Effects) → one.status ≡ Done → EndsSave from one to → IsTrue to.heap.is_open
        → (image : List ℕ) → one.before ≡ Some [] → one.after ≡ Some image
        → (there begin : RunState) (two : Effects) → two.had ≡ Some image → EndsLoad begin two there → two.status ≢ BadImage }
    ensures loads { (from to : RunState) (one : Effects) → one.status ≡ Done → EndsSave from one to → IsTrue to.heap.is_open
        → (image : List ℕ) → one.before ≡ Some [] → one.after ≡ Some image
        → (there begin : RunState) (two : Effects) → two.had ≡ Some image → two.status ≡ Done → EndsLoad begin two there
        → (live_objects there ≡ live_objects to) × (there.heap.profile ≡ at_bound_one to.heap.profile) × IsLoading there }
    ensures further { (from to : RunState) (one : Effects) → one.status ≡ Done → EndsSave from one to → IsTrue to.heap.is_open
        → (image : List ℕ) → one.before ≡ Some [] → one.after ≡ Some image
        → (there begin : RunState) (two : Effects) → two.had ≡ Some image → two.status ≡ Done → EndsLoad begin two there
        → to.heap.profile.k ≡ 1 → EveryBoundIsOne (paging_in to.heap)
        → (items : List Item) (replies stated : List Reply) (last end : Option RunState) → AreFurther items
        → Run Moving (Some to) items replies last → Run Moving (Some there) items stated end → stated ≡ replies }
{
    an_image_is_read_back();
    equal_objects_get_equal_replies();
}

/// If mode `save` reads the script of the objects `o`, only their image meets the claim of the mode
/// (`MeetsSave`, clause `save`): no empty output (`nothing`), no output of another length (`size`),
/// no image with an entry too many (`over`), and no image of other objects (`others`). If mode
/// `load` reads the image, only the script of the objects meets the claim of the mode (`MeetsLoad`,
/// clause `load`): no empty output (`silent`), and no script of other objects (`exchanged`).
pub fn wrong_images_fall_short()
    ensures save { (p : Profile) (o : Objects) → HaveImage p o → (printed : List ℕ) → MeetsSave (script_items p o) printed
        → printed ≡ image_under p o }
    ensures nothing { (p : Profile) (o : Objects) → HaveImage p o → ¬ MeetsSave (script_items p o) [] }
    ensures size { (p : Profile) (o : Objects) → HaveImage p o → (printed : List ℕ)
        → length printed ≢ 20 + 6 * len o + asked_bytes o → ¬ MeetsSave (script_items p o) printed }
    ensures over { (p : Profile) (o : Objects) → HaveImage p o → (id : ℕ) (v : List ℕ) → get o id ≡ None
        → HaveImage p (insert o id v) → ¬ MeetsSave (script_items p o) (image_under p (insert o id v)) }
    ensures others { (p : Profile) (o n : Objects) → HaveImage p o → HaveImage p n → n ≢ o
        → ¬ MeetsSave (script_items p o) (image_under p n) }
    ensures load { (p : Profile) (o : Objects) → HaveImage p o → (printed : List ℕ) → MeetsLoad (image_under p o) printed
        → printed ≡ script_under p o }
    ensures silent { (p : Profile) (o : Objects) → HaveImage p o → ¬ MeetsLoad (image_under p o) [] }
    ensures exchanged { (p : Profile) (o n : Objects) → HaveImage p o → HaveImage p n → n ≢ o
        → ¬ MeetsLoad (image_under p o) (script_under p n) }
{
    an_image_determines_its_objects();
    an_image_is_read_back();
}
