//! The ports of a router, and where the words of their channels stand.

ghost use Rattle.std.specs.Prelude.{◌≡◌, ◌<◌, ◌≤◌, ◌+◌, ◌*◌, ◌%◌};
ghost use Rattle.noc_packet.specs.declared.limits.TheConstants.{MAX_CHANNELS};
ghost use Rattle.noc_columns.specs.declared.words.TheConstants.{WORDS};
ghost use Rattle.noc_columns.specs.declared.ports.TheConstants.{PORTS};

/// For how many ports there is room; a router has seven at most.
pub const PORTS: usize = 8;

/// Ports whose words stand side by side: virtual channel v of all of them, then v + 1, and so on.
#[derive(Drop)]
pub struct Ports {
    /// Where the words of virtual channel 0 begin.
    pub first: usize,
    /// How many ports these are.
    pub width: usize,
    /// How many virtual channels each port has.
    pub vcs: usize,
    ghost few: { width ≤ PORTS },
    ghost fit: { first + vcs * width ≤ WORDS },
}

/// All ports of a router: the link ports, and as the last one the local port.
///
/// In a switch these are the output ports. To an output port the input ports are what virtual
/// channels are to an input port, so there `vcs` is how many input ports there are.
#[derive(Drop)]
pub struct RouterPorts {
    /// The link ports: 2, 4 or 6. Their words stand first.
    pub links: Ports,
    /// The local port, whose words stand behind those of the link ports.
    pub local: Ports,
    ghost some: { 0 < links.width },
    ghost pairs: { links.width % 2 ≡ 0 },
    ghost room: { links.width < PORTS },
    ghost one: { local.width ≡ 1 },
    ghost alike: { local.vcs ≡ links.vcs },
    ghost first: { links.first ≡ 0 },
    ghost behind: { local.first ≡ links.vcs * links.width },
    ghost few: { links.vcs ≤ MAX_CHANNELS },
}
