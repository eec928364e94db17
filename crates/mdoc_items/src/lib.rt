//! The issuer-signed items of a mobile document (ISO/IEC 18013-5), and the claim tree of their values.
#![tactic(auto)]

mod issuer_signed_items;
mod item_fields;
mod map_fields;
mod tree;
mod value;

pub use issuer_signed_items::{IssuerSignedItem, Namespace, are_too_many, read_namespaces};
pub use map_fields::{LEVELS, embedded, is_list, is_map, map_at, natural, read_map, text_at};
pub use tree::document_tree;
