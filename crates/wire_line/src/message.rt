use ring128::Words;

/// Who sends or receives a message: the client of a query, or one of the three servers.
#[derive(Clone, Copy, Debug, PartialEq, Eq)]
pub enum Peer {
    Client,
    Server0,
    Server1,
    Server2,
}

/// A message as it was sent and as it was received; both lists have the same length.
#[derive(Drop)]
pub struct Message {
    pub sender: Peer,
    pub receiver: Peer,
    pub sent: Words,
    pub received: Words,
}
