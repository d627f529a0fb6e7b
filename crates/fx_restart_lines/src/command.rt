//! What an accepted line asks for.
use fx_base::Seq;
use fx_found::Found;
use fx_model::Update;

#[derive(Drop)]
pub enum RestoreCommand {
    Blank,
    /// The tables that the node's kernel has, and the rows of others.
    Found(Found),
    Update(Update),
    /// Puts and deletes that are made together: all of them or none.
    Batch(Seq<Update>),
}
