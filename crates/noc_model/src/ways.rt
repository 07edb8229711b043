//! The ways out of a tile, and their ports.

ghost use Rattle.std.specs.Prelude.{◌≡◌, ◌<◌, ◌^◌};
ghost use Rattle.noc_model.specs.Place.{way_of, port_of, opposite_way};

/// A way out of a tile, or into it: one along each dimension in each direction, and one to the tile's attachments.
#[derive(Clone, Copy, Debug, PartialEq, Eq)]
pub enum Way {
    /// To the attachments.
    Local,
    /// To the next coordinate up in a dimension.
    Plus(u32),
    /// To the next coordinate down.
    Minus(u32),
}

impl Way {
    /// The way of a port: port 0 is local, `1 + 2 * i` is plus in dimension `i`, and `2 + 2 * i` is minus.
    pub fn of_port(port: u32) -> Way
        ensures { result ≡ way_of port }
    {
        if port == 0 {
            return Way::Local;
        }
        let dim = (port - 1) / 2;
        if (port - 1) % 2 == 0 {
            Way::Plus(dim)
        } else {
            Way::Minus(dim)
        }
    }

    /// The port of this way, which has one below 2^32.
    pub fn port(self) -> u32
        requires { port_of self < 2 ^ 32 }
        ensures { result ≡ port_of self }
    {
        match self {
            Way::Local => 0,
            Way::Plus(dim) => 1 + 2 * dim,
            Way::Minus(dim) => 2 + 2 * dim,
        }
    }

    /// The way by which a link arrives that leaves by this one.
    pub fn opposite(self) -> Way
        ensures { result ≡ opposite_way self }
    {
        match self {
            Way::Local => Way::Local,
            Way::Plus(dim) => Way::Minus(dim),
            Way::Minus(dim) => Way::Plus(dim),
        }
    }
}
