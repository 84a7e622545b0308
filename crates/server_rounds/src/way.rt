ghost use Rattle.std.specs.Prelude.{◌≡◌, ◌<◌};
ghost use Rattle.server_rounds.specs.Groups.{from_of, to_of};
ghost use Rattle.transcript.specs.Steps.{peer_of};

use wire_line::Peer;

/// Which way the three messages of a step go.
#[derive(Clone, Copy, Debug, PartialEq, Eq)]
pub enum Way {
    /// From the client to each server.
    ToServers,
    /// From each server to the one before it.
    Around,
    /// From each server to the client.
    ToClient,
}

// Server 0, 1 or 2.
fn server(k: u8) -> Peer
    requires { k < 3 }
    ensures { result ≡ peer_of k }
{
    match k {
        0 => Peer::Server0,
        1 => Peer::Server1,
        _ => Peer::Server2,
    }
}

impl Way {
    /// Who sends message k.
    pub(crate) fn sender(self, k: u8) -> Peer
        requires { k < 3 }
        ensures { result ≡ from_of self k }
    {
        match self {
            Way::ToServers => Peer::Client,
            Way::Around => server(k),
            Way::ToClient => server(k),
        }
    }

    /// Who receives message k.
    pub(crate) fn receiver(self, k: u8) -> Peer
        requires { k < 3 }
        ensures { result ≡ to_of self k }
    {
        match self {
            Way::ToServers => server(k),
            Way::Around => server((k + 2) % 3),
            Way::ToClient => Peer::Client,
        }
    }
}
