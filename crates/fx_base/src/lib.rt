//! The ground floor: bytes in and out, texts and fixed names, and the containers that contracts see as lists, finite
//! maps and finite sets.
#![tactic(auto)]

pub use chain_name::ChainName;
pub use counts::{CountSink, Counter, Ticker};
pub use exact::{Exact, same};
pub use fixed_map::{ChainMap, FixedMap, NameMap, SetMap};
pub use fixed_name::FixedName;
pub use kernel_name::KernelName;
pub use memory::{BadText, Memory};
pub use memory_sink::MemSink;
pub use memory_source::{MemSource, SureSource};
pub use name_key::NameKey;
pub use net::{Ipv4, Net, NetText, PortRange, Proto};
pub use seq::Seq;
pub use set_name::{SetKind, SetName};
pub use streams::{Failed, Sink, Source};
pub use text::Text;
pub use text_map::TextMap;
pub use torn_sink::TornSink;
pub use uses::Uses;

mod address_text;
mod bytes_order;
mod chain_name;
mod counts;
mod exact;
mod failing;
mod fixed_map;
mod fixed_name;
mod kernel_name;
mod memory;
mod memory_sink;
mod memory_source;
mod name_key;
mod net;
mod net_bits;
mod net_exact;
mod net_text;
mod number;
mod port_text;
mod protocol_text;
mod seq;
mod set_name;
mod streams;
mod text;
mod text_map;
mod torn_sink;
mod uses;
