//! `libdnorm`, the library for C: a text is fed in pieces and read, and its instance is copied out, printed and
//! compared. Each function that C calls has the contract of the function of the crates below that does the work.
//!
//! `exports` has the functions that C calls, over a `handle`, which owns a `work`: a reader, a parsed instance, a
//! refusal, a text, or a reader of arc lines. `seal` keeps a work behind a pointer, and `shown` lends it to calls that
//! only read it. `status` is what a call returns. `walk` goes over canonical `arcs` from any `cursor` on, and `next`
//! copies them. `facts`, `items` and `outputs` copy the rest out, `lines` hands out arc lines, and `store` puts a new
//! work into a handle. `difference` compares two instances, `fits` a companion with its graph, and `flows` puts a flow
//! on arc lines. C may call them in any order: a call that a handle is not for changes nothing and says so.
#![tactic(auto)]

mod arcs;
pub mod cursor;
mod difference;
pub mod exports;
mod facts;
mod fits;
mod flows;
pub mod handle;
mod items;
pub mod laws;
mod lines;
mod next;
mod outputs;
mod seal;
pub mod shown;
pub mod status;
mod store;
mod walk;
pub mod work;
