//! What an accepted line asks for.
use fx_model::Packet;
use fx_services::Lowered;

#[derive(Drop)]
pub enum ServicesCommand {
    Blank,
    Tables,
    /// Sends the messages that are left.
    Flush,
    /// The update that stands for that of the line.
    Change(Lowered),
    Packet(Packet),
}
