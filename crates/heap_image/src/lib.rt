//! Heap images: `save` writes the settings but k and the live objects of a heap as bytes, and
//! `load` opens a heap with these settings and bound 1 and makes the objects again. Equal settings
//! and objects by id have equal images. `put_objects` visits the live objects by rising id, and
//! writes each in the format of an `ObjectWriter`; `length_of` reads an object's length. The ids
//! are those of a `Namer`: a session of a script, or the `Names` of another program.
#![tactic(auto)]

mod fault;
mod fields_in;
mod image_in;
mod image_out;
mod laws;
mod names;
mod objects_in;
mod objects_out;
mod settings_in;

pub use fault::LoadFault;
pub use image_in::load;
pub use image_out::{length_of, save};
pub use laws::{
    an_image_determines_its_objects, an_image_is_read_back, equal_objects_have_one_image,
    live_objects_have_an_image,
};
pub use names::Names;
pub use objects_out::{ObjectWriter, put_objects};
