//! The hardened object: tables and bytes for a layout.
#![tactic(auto)]

mod code_bytes;
mod code_pieces;
mod emitting;
mod first_items;
mod kept_bytes;
mod lasting;
mod map_section;
mod mapping;
mod marks;
mod moved_symbols;
mod moves;
mod new_relocs;
mod new_sections;
mod new_symbols;
mod numbers;
mod reloc_sites;
mod reloc_table;
mod rows;
mod target_symbols;
mod targets;
mod turns;
mod word_numbers;
mod word_places;

pub use emitting::emit;
pub use turns::is_turned;
