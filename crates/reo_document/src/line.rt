ghost use Rattle.std.specs.Prelude.{◌≡◌};
ghost use Rattle.std.specs.Option.{option_copied};
ghost use Rattle.reo_document.specs.Document.{channel_in, port_in};

use reo_net::{Channel, Port};
use reo_value::Way;

/// A line of a document's circuit, with its nodes by number.
#[derive(Drop)]
pub enum Line {
    /// A port of this way at this node.
    Port(Way, u32),
    Channel(Channel),
}

impl Line {
    /// The channel of a channel line.
    pub fn channel(&self) -> Option<&Channel>
        ensures { option_copied result ≡ channel_in self.now }
    {
        match self {
            Line::Port(_, _) => None,
            Line::Channel(channel) => Some(channel),
        }
    }

    /// The port of a port line.
    pub fn port(&self) -> Option<Port>
        ensures { result ≡ port_in self.now }
    {
        match self {
            Line::Port(way, node) => Some(Port {
                node: *node,
                way: *way,
            }),
            Line::Channel(_) => None,
        }
    }
}
