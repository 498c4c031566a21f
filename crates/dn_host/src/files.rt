// Files, which hand out texts by name.
ghost use Rattle.std.specs.Prelude.{◌≡◌};
ghost use Rattle.dn_host.specs.State.Takes.{Takes};
ghost use Rattle.dn_host.specs.Takings.{FilesFacts, TakesBack};

use dn_instance::Held;
use dn_line::ByteSource;
use thiserror::Error;

/// Why files did not hand out a text.
#[derive(Clone, Copy, Debug, PartialEq, Eq, Error)]
pub enum FilesFault {
    /// There is no such file, or it could not be opened.
    #[error("the file could not be opened")]
    Device,
    /// An allocation failed.
    #[error("out of memory")]
    Memory,
}

/// Hands out texts by name. The name `-` is standard input.
pub trait Files {
    /// A text that the files hand out.
    type Text: ByteSource + Drop;

    /// How the files describe themselves.
    ghost files: { FilesFacts Self Self.Text };

    /// Hands out the text of this name. Does not change what is behind any name, except what is behind `-` if this name
    /// is `-`.
    ///
    /// # Errors
    ///
    /// `Device` if the text could not be opened. `Memory` if an allocation failed.
    fn take(&mut self, name: &str) -> Result<Self::Text, FilesFault>
        ensures { Takes files self.old self.new name.now Self.Text.source result };

    /// Takes back the source of the text of this name, which a run has read as far as it needs.
    fn give_back(&mut self, name: &str, text: Self::Text)
        ensures { TakesBack files self.old self.new name.now text };

    /// Takes an instance that the run no longer needs, and frees it. Does not change the files.
    ///
    /// Files of a program that runs once may leave an instance to the end of the program: to free what the bundles of
    /// a `min` text hold, one by one, takes a sixth of the time of `canon`.
    fn release(&mut self, held: Held)
        ensures { self.new ≡ self.old }
    {
        drop(held);
    }
}
