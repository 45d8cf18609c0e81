//! Laws of images: what an image of objects has, and what the images of two lists of objects that answer each other
//! have in common. The functions do nothing: their contracts are the laws.
#![tactic(auto)]

mod laws;
mod pair_laws;

pub use laws::{
    code_is_aligned, code_lies_inside, code_stays, data_lies_inside, data_stays_in_sections,
    each_relocation_is_linked, images_have_no_fault, linked_instructions_stand, linked_words_stand,
    objects_have_one_image, parts_lie_apart, plain_instructions_stand, plain_words_stand,
    sections_have_parts, sequences_stand,
};
pub use pair_laws::{
    answers_have_images, data_meets, data_stays, entries_come_back, entries_meet, names_meet,
    points_meet, values_meet,
};
