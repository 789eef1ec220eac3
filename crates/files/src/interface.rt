// The two sets of methods of an accepted interface file.
ghost use Rattle.std.specs.Prelude.{◌≡◌, ◌<◌};
ghost use Rattle.files.specs.Interface.{in_set, provides, requires_method};
ghost use Rattle.files.specs.Decode.{decode_interface};
ghost use Rattle.files.specs.Access.{InterfaceFile};

use crate::parse::read;

// Method m is in the set whose bit of weight 2^(m-1) stands for it.
pub(crate) fn in_set(x: u8, m: u8) -> bool
    ensures { result ≡ in_set x m }
{
    if m < 1 {
        return false;
    }
    if 8 < m {
        return false;
    }
    (x >> (m - 1)) % 2 == 1
}

// The sets of the one record of the file, each a byte.
#[derive(Clone, Copy)]
struct MethodSets {
    provided: u8,
    required: u8,
}

fn method_sets(interface: &[u8]) -> MethodSets
    requires { InterfaceFile interface.now }
    ensures { (result.provided ≡ (decode_interface interface.now).provided) × (result.required ≡ (decode_interface interface.now).required) }
{
    let r = read(interface, 0);
    MethodSets {
        provided: r.first,
        required: r.second,
    }
}

// The byte of the provided methods.
pub fn provided_methods(interface: &[u8]) -> u8
    requires { InterfaceFile interface.now }
    ensures { result ≡ (decode_interface interface.now).provided }
{
    method_sets(interface).provided
}

// The byte of the required methods.
pub fn required_methods(interface: &[u8]) -> u8
    requires { InterfaceFile interface.now }
    ensures { result ≡ (decode_interface interface.now).required }
{
    method_sets(interface).required
}

// Method m is provided.
pub fn provides(interface: &[u8], m: u8) -> bool
    requires { InterfaceFile interface.now }
    ensures { result ≡ provides (decode_interface interface.now) m }
{
    in_set(provided_methods(interface), m)
}

// Method m is required.
pub fn requires_method(interface: &[u8], m: u8) -> bool
    requires { InterfaceFile interface.now }
    ensures { result ≡ requires_method (decode_interface interface.now) m }
{
    in_set(required_methods(interface), m)
}
