//! Devices for tests: a text that is read in pieces, and a page that is written in pieces, which fail when they're told to.
//!
//! Both tell contracts their octets, as [`text_base::Source`] and [`text_base::Sink`] ask.
#![tactic(auto)]

mod page;
mod text;

pub use page::Page;
pub use text::Text;
