//! The two views.
use fx_model::View;
use std::alloc::Global;

/// What the messages so far have made, and what is wanted now.
#[derive(Drop)]
pub struct Sides {
    pub sent: View,
    pub wanted: View,
}

impl Sides {
    ghost use Rattle.std.specs.Prelude.{◌≡◌};
    ghost use Rattle.fx_model.specs.Views.{empty_view};

    pub fn new(alloc: Global) -> Sides
        ensures { result ≡ record { sent = empty_view; wanted = empty_view } }
    {
        Sides {
            sent: View::new(alloc),
            wanted: View::new(alloc),
        }
    }
}
