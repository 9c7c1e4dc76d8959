//! Where names stand.
ghost use Rattle.std.specs.Prelude.{◌≡◌};
ghost use Rattle.reo_net.specs.Stand.{is_put, stand_of_port, stand_of_end, stand_of};

use crate::circuit::{Channel, Port};
use crate::net::Net;
use reo_value::Way;
use sqlite_items::at;

/// The node of a name, and whether data come into the node there.
#[derive(Clone, Copy, Debug, PartialEq, Eq)]
pub struct Stand {
    pub node: u32,
    pub incoming: bool,
}

fn is_put(way: Way) -> bool
    ensures { result ≡ is_put way }
{
    match way {
        Way::Put => true,
        Way::Get => false,
    }
}

fn stand_of_port(port: &Port) -> Stand
    ensures { result ≡ stand_of_port port.now }
{
    Stand {
        node: port.node,
        incoming: is_put(port.way),
    }
}

fn stand_of_end(is_a: bool, channel: &Channel) -> Stand
    ensures { result ≡ stand_of_end is_a channel.now }
{
    if is_a {
        Stand {
            node: channel.a,
            incoming: false,
        }
    } else {
        Stand {
            node: channel.b,
            incoming: channel.kind.comes_out_at_b(),
        }
    }
}

/// Where a name stands, or `None` past the last name.
pub fn stand_of(net: &Net, name: u32) -> Option<Stand>
    ensures { result ≡ stand_of net.now name }
{
    let name = name as usize;
    let ports = net.ports().len();
    if name < ports {
        let port = at(net.ports(), name)?;
        Some(stand_of_port(port))
    } else {
        let channel = at(net.channels(), (name - ports) / 2)?;
        Some(stand_of_end((name - ports) % 2 == 0, channel))
    }
}
