//! Signed requests (RFC 9101; OpenID4VP 1.0, section 5): the rules that one must keep, with the judgement of
//! its signature among them, and what it asks.
//!
//! [`Request::read`] reads a request object, or a link with one in it, by 21 numbered rules, and refuses it
//! by the first that is broken. The device is asked once, exactly where the first eight hold.
//! [`make_object`] writes the request object of a site, which is read as what the site asked.
#![tactic(auto)]

mod clients;
mod content;
mod error;
mod laws;
mod made;
mod read;
mod request;

pub use error::Error;
pub use laws::{ends_as_asked, made_is_asked};
pub use made::make_object;
pub use request::{Asked, Request};
pub use request_clients::Clients;
pub use request_content::RequestRule;
