//! Files, which hand out texts by name and which the run of a command asks for texts; and the files and streams of the
//! host. In the order of the data: `stream` has streams of bytes, and `buffered` sources over them; `opener` opens
//! streams; `files` has the trait, and `opened_files` hands out what is opened by name. `device` has devices that take
//! bytes, and `retried` writers over them that retry interrupted writes. `host` has what the host opens, its words and
//! its standard output.
#![tactic(auto)]

pub mod buffered;
pub mod device;
pub mod files;
pub mod host;
pub mod opened_files;
pub mod opener;
pub mod retried;
pub mod stream;

pub use device::Device;
pub use files::{Files, FilesFault};
pub use host::{HostDevice, HostOpener, out_of, words_of};
pub use opener::Opener;
pub use retried::Retried;
pub use stream::Stream;
