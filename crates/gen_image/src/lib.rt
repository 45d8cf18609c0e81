//! Laws of the generated object's image.
#![tactic(auto)]

mod laws;

pub use laws::{generated_images_are_known, generated_objects_are_linked};
