//! The trait that maps the payloads of a tree, and the names and loads that have payloads.
pub mod function;
pub mod ident;
pub mod load;
pub mod made;
