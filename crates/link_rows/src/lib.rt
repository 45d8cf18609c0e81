//! Rows of calls that link objects, each with the answer that it must have.
#![tactic(auto)]

#[cfg(test)]
mod links;
#[cfg(test)]
mod relocated;
