//! Whole texts: the instance that a text reads as, or its first fault, and what an instance means. A text arrives
//! whole, in pieces, or from a source. The reader returns the first fault of a text as soon as its line is complete,
//! and keeps a refusal.
//!
//! In the order of the data: `read` takes a text from memory or pulls it from a source, `reader` takes it in pieces,
//! and `text_so_far` takes each line and checks what depends on the number and order of lines. `declared` is what the
//! problem line declares, `node_descriptors` holds what `n` lines make, and `body` what counted lines make. `arcs` and
//! `items` take one item each, and `ahead` looks up the pairs of the next arcs. `refusal` says why an item or a text is
//! refused, and where. `held` is a parsed instance, and `view` shows it. `companion` judges a companion by its graph.
//! `verdict` says where two instances first differ.
#![tactic(auto)]

mod ahead;
mod arcs;
mod body;
pub mod companion;
pub mod declared;
pub mod held;
mod items;
mod node_descriptors;
pub mod read;
pub mod reader;
pub mod refusal;
mod text_so_far;
pub mod verdict;
pub mod view;

pub use companion::{CompanionFault, check_companion};
pub use declared::Declared;
pub use dn_table::{Pairs, Table};
pub use held::Held;
pub use read::{read_from, read_keep, read_text};
pub use reader::Reader;
pub use refusal::{Place, Refusal};
pub use verdict::Verdict;
pub use view::View;
