//! What is known of the tables that the node's kernel has.
ghost use Rattle.std.specs.Prelude.{◌≡◌};
ghost use Rattle.fx_restart_lines.specs.Finding.{is_awaited, passed};

use fx_found::Found;

#[derive(Drop)]
pub enum Finding {
    /// No line but blank ones was there yet.
    Awaited,
    /// The first line that isn't blank was refused.
    Missing,
    Read(Found),
}

impl Finding {
    pub fn is_awaited(&self) -> bool
        ensures { result ≡ is_awaited self.now }
    {
        match self {
            Finding::Awaited => true,
            Finding::Missing | Finding::Read(_) => false,
        }
    }

    /// Goes past a line that is refused.
    pub fn pass(&mut self)
        ensures { self.new ≡ passed self.old }
    {
        if self.is_awaited() {
            *self = Finding::Missing;
        }
    }
}
