//! What chain names begin with.
ghost use Rattle.std.specs.Prelude.{◌≡◌};
ghost use Rattle.fx_names.specs.Names.{prefix_text, room};

/// What a chain is of: a policy, a profile or an endpoint, and the way of the packets that it sees.
#[derive(Clone, Copy, Debug, PartialEq, Eq)]
pub enum Prefix {
    PolicyIn,
    PolicyOut,
    ProfileIn,
    ProfileOut,
    ToEndpoint,
    FromEndpoint,
}

impl Prefix {
    pub fn bytes(self) -> &'static [u8]
        ensures { result.now ≡ prefix_text self }
    {
        match self {
            Prefix::PolicyIn => b"cali-pi-",
            Prefix::PolicyOut => b"cali-po-",
            Prefix::ProfileIn => b"cali-pri-",
            Prefix::ProfileOut => b"cali-pro-",
            Prefix::ToEndpoint => b"cali-tw-",
            Prefix::FromEndpoint => b"cali-fw-",
        }
    }

    /// The bytes that a chain name of 28 has behind the prefix.
    pub fn room(self) -> usize
        ensures { result ≡ room self }
    {
        match self {
            Prefix::ProfileIn | Prefix::ProfileOut => 19,
            Prefix::PolicyIn | Prefix::PolicyOut | Prefix::ToEndpoint | Prefix::FromEndpoint => 20,
        }
    }
}
