//! The commands as a user meets them: rows of words and files, each with the ending, the text and the saved
//! file that must come of it.
#![tactic(auto)]

#[cfg(test)]
mod broken_rows;
#[cfg(test)]
mod calls;
#[cfg(test)]
mod files;
#[cfg(test)]
mod harden_rows;
#[cfg(test)]
mod hardening_rows;
#[cfg(test)]
mod image_rows;
#[cfg(test)]
mod list_rows;
#[cfg(test)]
mod make_rows;
#[cfg(test)]
mod pair_rows;
#[cfg(test)]
mod relocated_files;
#[cfg(test)]
mod relocated_rows;
#[cfg(test)]
mod word_rows;
